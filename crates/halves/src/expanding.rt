//! The open roads out of a place relaxed.
ghost use Rattle.std.specs.Prelude.{◌≡◌, Some};
ghost use Rattle.halves.specs.Sides.{Agrees};
ghost use Rattle.halves.specs.Expansions.{driven, driven_along};
ghost use Rattle.map.specs.Model.{leaving};
ghost use Rattle.halves.specs.Sides.{Agrees, Steadied};

use crate::relaxing::relax;
use fringe::fringes::Fringe;
use fringe::place::Place;
use map::maps::Map;
use map::numbers::RoadId;
use map::roads::{Mark, Road};
use measure::measures::Measure;
use routes::labels::Label;

/// Relaxes a road from where `cost` was paid, if it is open.
fn drive<M: Measure + Copy, F: Fringe<M>>(
    labels: &mut [Label<M>],
    fringe: &mut F,
    cost: M,
    number: RoadId,
    road: Road,
)
    ensures labels { labels.new ≡ driven M.Order.thing M.Order.leq M.Measure.plus M.Measure.cost cost number (Some road) labels.old }
    ensures agree { Agrees M.Order F.Fringe fringe.old labels.old → Agrees M.Order F.Fringe fringe.new labels.new }
    ensures steady { F.Fringe.well fringe.old → Steadied F.Fringe fringe.old fringe.new }
{
    match road.mark {
        Mark::Open => {
            let sum = cost.add(M::price(road.seconds, road.steepness));
            relax(labels, fringe, road.end, sum, number);
        }
        Mark::Closed => {}
    }
}

/// Relaxes every open road that leaves u, which costs `cost`, in the order of its departures.
pub fn expand<M: Measure + Copy, G: Map, F: Fringe<M>>(
    map: &G,
    u: Place,
    cost: M,
    labels: &mut [Label<M>],
    fringe: &mut F,
)
    ensures labels { labels.new ≡ driven_along M.Order.thing M.Order.leq M.Measure.plus M.Measure.cost (G.Map.model map.now) cost (leaving (G.Map.model map.now) u.0) labels.old }
    ensures agree { Agrees M.Order F.Fringe fringe.old labels.old → Agrees M.Order F.Fringe fringe.new labels.new }
    ensures steady { F.Fringe.well fringe.old → Steadied F.Fringe fringe.old fringe.new }
{
    for number in map.departures(u) {
        if let Some(road) = map.road(number) {
            drive(labels, fringe, cost, number, road);
        }
    }
}
