//! What it is to be a measure.
ghost use Rattle.std.specs.Prelude.{◌≡◌, ℕ};
ghost use Rattle.measure.specs.Costs.{CostLaws};

use fringe::order::Order;

/// An order whose values are costs: a cost for each road, a sum, a zero, and a cost called blocked, above all others.
///
/// The members say what the functions of like meaning return, on the values as they are stored: `plus` is the sum,
/// `nil` the zero, `top` blocked, `cost` a road's cost by its seconds and steepness, `code` a cost's number, and
/// `decoded` the cost of a number. What they have to keep, `CostLaws`, is promised by `zero` and by `add`, so that code
/// over any measure has it from a call.
pub trait Measure: Order + Sized {
    ghost plus: { Self → Self → Self };

    ghost nil: { Self };

    ghost top: { Self };

    ghost cost: { ℕ → ℕ → Self };

    ghost code: { Self → ℕ };

    ghost decoded: { ℕ → Self };

    // The laws are promises of `zero` and `add`, and no law of the trait: every function that states them has them from a call.

    /// The cost of no road at all.
    fn zero() -> Self
        ensures exact { result ≡ nil }
        ensures laws { CostLaws Self.Order.thing Self.Order.leq plus nil top cost code };

    /// The cost of one way and then another.
    fn add(self, other: Self) -> Self
        ensures exact { result ≡ plus self other }
        ensures laws { CostLaws Self.Order.thing Self.Order.leq plus nil top cost code };

    /// The cost where there is no way.
    fn blocked() -> Self
        ensures { result ≡ top };

    /// The cost of a road, which its seconds and its steepness alone decide.
    fn price(seconds: u16, steepness: u16) -> Self
        ensures { result ≡ cost seconds steepness };

    /// The number under which a cost is written down.
    fn number(self) -> u64
        ensures { result ≡ code self };

    /// The cost that was written down as `n`, if one was.
    fn from_number(n: u64) -> Self
        ensures exact { result ≡ decoded n }
        ensures back { (a : Self) → code a ≡ n → Self.Order.thing result ≡ Self.Order.thing a };
}
