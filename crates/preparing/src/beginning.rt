//! The beginning of a spread from a district.
ghost use Rattle.std.specs.Prelude.{◌≤◌, length};
ghost use Rattle.preparing.specs.Beginnings.{Sown};
ghost use Rattle.halves.specs.Sides.{Agrees, Steadied};

use fringe::fringes::Fringe;
use fringe::place::Place;
use halves::{reach, wipe};
use map::maps::Map;
use map::numbers::District;
use measure::measures::Measure;
use routes::labels::Label;

/// Begins anew: reaches every place of the district at nothing, and blanks all other labels.
pub fn begin<M: Measure + Copy, G: Map, F: Fringe<M>>(
    map: &G,
    district: District,
    labels: &mut [Label<M>],
    fringe: &mut F,
)
    ensures labels { Sown (G.Map.model map.now) district.0 M.Measure.nil (length labels.old) labels.new }
    ensures agree { length labels.old ≤ (F.Fringe.meaning fringe.old).capacity → Agrees M.Order F.Fringe fringe.new labels.new }
    ensures steady { Steadied F.Fringe fringe.old fringe.new }
{
    wipe(labels, fringe);
    for i in 0..map.places() {
        let place = Place(i as u16);
        if map.is_in(district, place) {
            reach(labels, fringe, place, M::zero());
        }
    }
}
