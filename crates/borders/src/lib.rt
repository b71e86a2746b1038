//! Border places: those with a road to or from another district.
#![tactic(auto)]

ghost use Rattle.std.specs.Prelude.{◌≡◌, false, if◌then◌else◌, nat_lt};
ghost use Rattle.map.specs.Model.{leaving};
ghost use Rattle.routes.specs.Asking.{leaves, some_leaves, is_border};

use fringe::place::Place;
use map::maps::Map;
use map::numbers::{District, RoadId};
use turned::Turned;

/// Whether a road starts or ends in another district.
fn leaves<G: Map>(map: &G, district: District, number: RoadId) -> bool
    ensures { result ≡ leaves (G.Map.model map.now) district.0 ((G.Map.model map.now).road number.0) }
{
    let Some(road) = map.road(number) else {
        return false;
    };
    !map.is_in(district, road.start) || !map.is_in(district, road.end)
}

/// Whether one of the roads that leave u starts or ends in another district.
fn some_leaves<G: Map>(map: &G, district: District, u: Place) -> bool
    ensures { result ≡ some_leaves (G.Map.model map.now) district.0 (leaving (G.Map.model map.now) u.0) }
{
    // Of `any` over these roads the check does not find the answer, and of this loop it does.
    for number in map.departures(u) {
        if leaves(map, district, number) {
            return true;
        }
    }
    false
}

/// Whether u is a border place: a road of the map, open or closed, leads from it to another district or from another
/// district to it. A place that the map does not have is none.
pub fn is_border<G: Map>(map: &G, u: Place) -> bool
    ensures { result ≡ (if nat_lt u.0 (G.Map.model map.now).places then is_border (G.Map.model map.now) u.0 else false) }
{
    map.district(u).is_some_and(|district| {
        some_leaves(map, district, u) || some_leaves(&Turned { of: map }, district, u)
    })
}
