//! Time as a measure.
ghost use Rattle.std.specs.Prelude.{◌≡◌, ℕ, min, nat_le};
ghost use Rattle.measure.specs.Costs.{CostLaws};
ghost use Rattle.measure.specs.Times.{time, seconds_of, add_time};
ghost use Rattle.std.proofs.Common.{rules};

use crate::measures::Measure;
use fringe::order::Order;

/// Seconds. A sum stops at 4,294,967,295, and that many are blocked.
#[derive(Clone, Copy, PartialEq, Eq, Debug)]
pub struct Time(pub u32);

impl Order for Time {
    ghost Thing = { ℕ };

    ghost thing = { seconds_of };

    ghost leq = { nat_le };

    ghost ordered = { Prim.search rules };

    fn less(&self, other: &Time) -> bool {
        // On the numbers: a derived order does not say that they are within range.
        self.0 < other.0
    }
}

impl Measure for Time {
    ghost plus = { add_time };

    ghost nil = { time 0 };

    ghost top = { time 4294967295 };

    ghost cost = { λ seconds _. time seconds };

    ghost code = { seconds_of };

    ghost decoded = { λ n. time (min n 4294967295) };

    fn zero() -> Time {
        lawful();
        Time(0)
    }

    fn add(self, other: Time) -> Time {
        lawful();
        Time(self.0.saturating_add(other.0))
    }

    fn blocked() -> Time {
        Time(u32::MAX)
    }

    fn price(seconds: u16, _steepness: u16) -> Time {
        Time(u32::from(seconds))
    }

    fn number(self) -> u64 {
        u64::from(self.0)
    }

    fn from_number(n: u64) -> Time {
        Time(n.min(u64::from(u32::MAX)) as u32)
    }
}

/// Time keeps the laws of a measure: there is nothing to run, and the promise is all.
// One for each measure: a generic one would be handed the laws that it promises.
fn lawful()
    ensures { CostLaws seconds_of nat_le add_time (time 0) (time 4294967295) (λ seconds _. time seconds) seconds_of }
{}
