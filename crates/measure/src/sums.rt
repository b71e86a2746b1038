//! What code over any measure learns from a sum.
ghost use Rattle.std.specs.Prelude.{◌≡◌};
ghost use Rattle.measure.specs.Costs.{AtMost};

use crate::measures::Measure;

/// The sum of two costs, which is at least each of them and does not heed their order.
pub fn at_least_both<M: Measure>(a: M, b: M) -> M
    ensures exact { result ≡ M.Measure.plus a b }
    ensures first { AtMost M.Order.thing M.Order.leq a result }
    ensures second { AtMost M.Order.thing M.Order.leq b result }
    ensures turned { M.Order.thing result ≡ M.Order.thing (M.Measure.plus b a) }
{
    a.add(b)
}
