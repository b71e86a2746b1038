//! Where two sides meet.
ghost use Rattle.std.specs.Prelude.{◌≡◌, Some, None};
ghost use Rattle.map.specs.Model.{leaving};
ghost use Rattle.halves.specs.Meetings.{joined, sum_at, nearer, met_over, best_along};
ghost use Rattle.routes.specs.Parts.{paid};

use crate::rows::label_at;
use fringe::order::Order;
use fringe::place::Place;
use fringe::precedes;
use map::maps::Map;
use map::roads::{Mark, Road};
use measure::measures::Measure;
use routes::labels::Label;

/// What two labels of a place cost together.
fn together<M: Measure + Copy>(own: Label<M>, other: Label<M>) -> Option<M>
    ensures { result ≡ joined M.Measure.plus (paid own) (paid other) }
{
    let paid = own.cost()?;
    let rest = other.cost()?;
    Some(paid.add(rest))
}

/// What the two labels of a place cost together.
fn sum<M: Measure + Copy>(own: &[Label<M>], other: &[Label<M>], place: Place) -> Option<M>
    ensures { result ≡ sum_at M.Measure.plus own.now other.now place.0 }
{
    together(label_at(own, place), label_at(other, place))
}

/// The better of what was found and a place with its cost, if it has one: the cheaper, of equals the lower place.
fn better_of<C: Order + Copy>(
    found: Option<(Place, C)>,
    place: Place,
    cost: Option<C>,
) -> Option<(Place, C)>
    ensures { result ≡ nearer C.Order.thing C.Order.leq found place cost }
{
    let Some(c) = cost else {
        return found;
    };
    let next = (place, c);
    match found {
        Some(best) => Some(if precedes(&next, &best) { next } else { best }),
        None => Some(next),
    }
}

/// The better of what was found and the end of a road, if it is open.
fn meet<M: Measure + Copy>(
    own: &[Label<M>],
    other: &[Label<M>],
    road: Road,
    found: Option<(Place, M)>,
) -> Option<(Place, M)>
    ensures { result ≡ met_over M.Order.thing M.Order.leq M.Measure.plus own.now other.now (Some road) found }
{
    match road.mark {
        Mark::Open => better_of(found, road.end, sum(own, other, road.end)),
        Mark::Closed => found,
    }
}

/// Of the far ends of u's open roads that both sides have labelled, the one with the least sum, and of equals the lowest
/// place.
pub fn best_meeting<M: Measure + Copy, G: Map>(
    map: &G,
    u: Place,
    own: &[Label<M>],
    other: &[Label<M>],
) -> Option<(Place, M)>
    ensures { result ≡ best_along M.Order.thing M.Order.leq M.Measure.plus own.now other.now (G.Map.model map.now) (leaving (G.Map.model map.now) u.0) None }
{
    let mut best: Option<(Place, M)> = None;
    for number in map.departures(u) {
        if let Some(road) = map.road(number) {
            best = meet(own, other, road, best);
        }
    }
    best
}
