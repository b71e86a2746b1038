//! Taking all that a fringe holds.
ghost use Rattle.std.specs.Prelude.{◌≡◌, ◌≤◌, length, drop};
ghost use Rattle.fringe.specs.Drains.{Drained};

use crate::fringes::Fringe;
use crate::order::Order;
use crate::place::Place;

/// Takes until the fringe is empty or `out` is full, writes down each place with its cost, and answers how many.
pub fn drain<C: Order + Copy, F: Fringe<C>>(fringe: &mut F, out: &mut [(Place, C)]) -> usize
    ensures within { result ≤ length out.old }
    ensures untouched { drop result out.new ≡ drop result out.old }
    ensures drained { F.Fringe.well fringe.old → Drained C.Order.thing C.Order.leq (F.Fringe.meaning fringe.old) (F.Fringe.meaning fringe.new) result out.new }
    ensures well { F.Fringe.well fringe.old → F.Fringe.well fringe.new }
{
    // By index, since the index is also the count that is answered.
    for i in 0..out.len() {
        match fringe.take() {
            Some(best) => out[i] = best,
            None => return i,
        }
    }
    out.len()
}
