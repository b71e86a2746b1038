//! Where the chain of origins of a place begins.
ghost use Rattle.std.specs.Prelude.{◌≡◌, suc, length};
ghost use Rattle.routes.specs.Labels.{start_at, origin_view, label_view, labels_view};
ghost use Rattle.routes.specs.Sweeps.{root};
ghost use Rattle.preparing.specs.Firsts.{number_in};
ghost use Rattle.preparing.specs.Chains.{named, comes_from};

use fringe::place::Place;
use halves::{label_at, start_of};
use map::maps::Map;
use routes::labels::{Label, Origin};

/// The place that an origin names, if it is not a start.
fn place_in<G: Map>(map: &G, origin: Origin) -> Option<Place>
    ensures { number_in result ≡ named (origin_view (start_at (G.Map.model map.now)) origin) }
{
    match origin {
        Origin::Start => None,
        Origin::Road(number) => Some(start_of(map, number)),
    }
}

/// The place that a label comes from, if it does not begin there.
fn previous<C: Copy, G: Map>(map: &G, label: Label<C>) -> Option<Place>
    ensures { number_in result ≡ comes_from (label_view (start_at (G.Map.model map.now)) label) }
{
    place_in(map, label.origin()?)
}

/// The place that the chain of origins of `place` begins at.
pub fn root_of<C: Copy, G: Map>(map: &G, labels: &[Label<C>], place: Place) -> Place
    ensures { result.0 ≡ root (suc (length labels.now)) (labels_view (start_at (G.Map.model map.now)) labels.now) place.0 }
{
    let mut at = place;
    for _ in 0..=labels.len() {
        let Some(u) = previous(map, label_at(labels, at)) else {
            return at;
        };
        at = u;
    }
    at
}
