//! The places along the origins of a label.
ghost use Rattle.std.specs.Prelude.{◌≡◌, ℕ, suc, ◌≤◌, length};
ghost use Rattle.routes.specs.Parts.{origin_in};
ghost use Rattle.halves.specs.Labels.{spot};
ghost use Rattle.routes.specs.Labels.{start_at, labels_view};
ghost use Rattle.routes.specs.Search.{trail};
ghost use Rattle.tracing.specs.Listings.{Listed, Short};

use fringe::place::Place;
use halves::{label_at, start_of};
use map::maps::Map;
use routes::labels::{Label, Origin};

/// Where the label of a place comes from.
fn origin_at<C: Copy>(labels: &[Label<C>], at: Place) -> Option<Origin>
    ensures { result ≡ origin_in (spot labels.now at.0) }
{
    label_at(labels, at).origin()
}

/// Writes down the places from `from` along the origins to the side's start, and answers how many they are. It stops where
/// the list is full.
pub fn trace<C: Copy, G: Map>(
    map: &G,
    labels: &[Label<C>],
    from: Place,
    list: &mut [Place],
) -> usize
    ensures within { result ≤ length list.old }
    ensures listed { (n : ℕ) → Short n (length list.old) (trail (suc n) (labels_view (start_at (G.Map.model map.now)) labels.now) from.0) → Listed (trail (suc n) (labels_view (start_at (G.Map.model map.now)) labels.now) from.0) list.old list.new result }
{
    let mut at = from;
    // By index, which is also the count that is answered: `enumerate` would only add a name.
    for i in 0..list.len() {
        let Some(origin) = origin_at(labels, at) else {
            return i;
        };
        list[i] = at;
        match origin {
            Origin::Start => return i + 1,
            Origin::Road(road) => at = start_of(map, road),
        }
    }
    list.len()
}
