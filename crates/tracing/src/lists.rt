//! A route written down.
ghost use Rattle.std.specs.Prelude.{◌≡◌, ℕ, ◌≤◌, length};
ghost use Rattle.map.specs.Turned.{turned_round};
ghost use Rattle.routes.specs.Labels.{start_at, labels_view};
ghost use Rattle.routes.specs.Search.{Both, route};
ghost use Rattle.tracing.specs.Listings.{Listed};
ghost use Rattle.tracing.specs.Meetings.{Met};

use crate::tracks::trace;
use fringe::place::Place;
use map::maps::Map;
use routes::labels::Label;
use turned::Turned;

/// Writes down the route through the place where the sides met, from the start to the goal, and answers how many places it
/// has.
///
/// The two halves share that place alone, so the second is written from it on.
pub fn write_route<C: Copy, G: Map>(
    map: &G,
    fore: &[Label<C>],
    back: &[Label<C>],
    meet: Place,
    list: &mut [Place],
) -> usize
    ensures { (n : ℕ) (x : Both C) → Met n (G.Map.model map.now) fore.now back.now meet.0 x → n ≤ length list.old → Listed (route n x) list.old list.new result }
{
    let met = trace(map, fore, meet, list);
    if met == 0 {
        return 0;
    }
    list[0..met].reverse();
    let ahead = &mut list[met - 1..];
    met - 1 + trace(&Turned { of: map }, back, meet, ahead)
}
