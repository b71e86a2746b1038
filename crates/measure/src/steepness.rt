//! Steepness as a measure.
ghost use Rattle.std.specs.Prelude.{◌≡◌, ℕ, min, nat_le};
ghost use Rattle.measure.specs.Costs.{CostLaws};
ghost use Rattle.measure.specs.Steeps.{steep, per_mille_of, steeper};
ghost use Rattle.std.proofs.Common.{rules};

use crate::measures::Measure;
use fringe::order::Order;

/// The steepest road of a way in per mille, alike uphill and down: a sum is the greater of its two parts. 65,535 per
/// mille are blocked.
#[derive(Clone, Copy, PartialEq, Eq, Debug)]
pub struct Steepness(pub u16);

impl Order for Steepness {
    ghost Thing = { ℕ };

    ghost thing = { per_mille_of };

    ghost leq = { nat_le };

    ghost ordered = { Prim.search rules };

    fn less(&self, other: &Steepness) -> bool {
        // On the numbers: a derived order does not say that they are within range.
        self.0 < other.0
    }
}

impl Measure for Steepness {
    ghost plus = { steeper };

    ghost nil = { steep 0 };

    ghost top = { steep 65535 };

    ghost cost = { λ _ steepness. steep steepness };

    ghost code = { per_mille_of };

    ghost decoded = { λ n. steep (min n 65535) };

    fn zero() -> Steepness {
        lawful();
        Steepness(0)
    }

    fn add(self, other: Steepness) -> Steepness {
        lawful();
        Steepness(self.0.max(other.0))
    }

    fn blocked() -> Steepness {
        Steepness(u16::MAX)
    }

    fn price(_seconds: u16, steepness: u16) -> Steepness {
        Steepness(steepness)
    }

    fn number(self) -> u64 {
        u64::from(self.0)
    }

    fn from_number(n: u64) -> Steepness {
        Steepness(n.min(u64::from(u16::MAX)) as u16)
    }
}

/// Steepness keeps the laws of a measure: there is nothing to run, and the promise is all.
// One for each measure: a generic one would be handed the laws that it promises.
fn lawful()
    ensures { CostLaws per_mille_of nat_le steeper (steep 0) (steep 65535) (λ _ steepness. steep steepness) per_mille_of }
{}
