//! A spread, from its beginning until nothing is reached.
ghost use Rattle.std.specs.Prelude.{◌≡◌};
ghost use Rattle.preparing.specs.Firsts.{sooner, noted};
ghost use Rattle.preparing.specs.Runs.{Ran};
ghost use Rattle.halves.specs.Sides.{Agrees, Steadied};

use fringe::fringes::Fringe;
use fringe::order::Order;
use fringe::place::Place;
use halves::{expand, settle_least};
use map::maps::Map;
use measure::measures::Measure;
use routes::labels::Label;

/// The first place of a district once `place` was settled in it.
fn earlier(known: Option<Place>, place: Place) -> Option<Place>
    ensures { result ≡ sooner known place }
{
    known.or(Some(place))
}

/// Notes a settled place as the first of its district, unless one came before.
fn note<G: Map>(map: &G, place: Place, firsts: &mut [Option<Place>])
    ensures { firsts.new ≡ noted (G.Map.model map.now) place firsts.old }
{
    if let Some(district) = map.district(place) {
        let j = usize::from(district);
        if j < firsts.len() {
            firsts[j] = earlier(firsts[j], place);
        }
    }
}

/// Settles and expands place after place until nothing is reached, notes the first of each district, and answers how many
/// were settled.
pub fn spread<M: Measure + Copy, G: Map, F: Fringe<M>>(
    map: &G,
    labels: &mut [Label<M>],
    fringe: &mut F,
    firsts: &mut [Option<Place>],
) -> usize
    ensures ran { Agrees M.Order F.Fringe fringe.old labels.old → Ran M.Order.thing M.Order.leq M.Measure.plus M.Measure.cost (G.Map.model map.now) labels.old firsts.old result labels.new firsts.new }
    ensures steady { F.Fringe.well fringe.old → Steadied F.Fringe fringe.old fringe.new }
{
    for taken in 0..labels.len() {
        let Some(best) = settle_least(labels, fringe) else {
            return taken;
        };
        note(map, best.0, firsts);
        expand(map, best.0, best.1, labels, fringe);
    }
    labels.len()
}
