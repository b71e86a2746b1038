//! Entries of a fringe: places with their costs.
ghost use Rattle.std.specs.Prelude.{◌≡◌, not};
ghost use Rattle.fringe.specs.Entries.{ahead};

use crate::order::Order;
use crate::place::Place;

/// Whether `a` comes before `b`: by the cost, and of equal costs by the place.
pub fn precedes<C: Order>(a: &(Place, C), b: &(Place, C)) -> bool
    ensures { result ≡ not (ahead C.Order.thing C.Order.leq b.now a.now) }
{
    if a.1.less(&b.1) {
        return true;
    }
    if b.1.less(&a.1) {
        return false;
    }
    a.0 < b.0
}
