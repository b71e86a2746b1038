//! What a map holds, counted district by district.
#![tactic(auto)]

ghost use Rattle.std.specs.Prelude.{◌≡◌, ◌≤◌, not, ◌&&◌};
ghost use Rattle.map.specs.Model.{is_in};
ghost use Rattle.survey.specs.Counts.{crosses, places_in, roads_leaving};

use fringe::Place;
use map::{District, Map, RoadId};

/// How many places a district has.
pub fn places_in<M: Map>(map: &M, district: District) -> usize
    ensures { result ≡ places_in (M.Map.model map.now) district.0 }
{
    (0..map.places())
        .filter(|&p| counts(map, district, p))
        .count()
}

/// How many roads, open or closed, start in a district and end in another.
pub fn roads_leaving<M: Map>(map: &M, district: District) -> usize
    ensures { result ≡ roads_leaving (M.Map.model map.now) district.0 }
{
    (0..map.roads() as u16)
        .filter(|&r| leaves(map, district, RoadId(r)))
        .count()
}

/// Whether the place of a number is one of the district.
fn counts<M: Map>(map: &M, district: District, number: usize) -> bool
    requires { number ≤ 65535 }
    ensures { result ≡ is_in (M.Map.model map.now) district.0 number }
{
    map.is_in(district, Place(number as u16))
}

/// Whether a road leaves the district.
fn leaves<M: Map>(map: &M, district: District, number: RoadId) -> bool
    ensures { result ≡ crosses (M.Map.model map.now) district.0 ((M.Map.model map.now).road number.0) }
{
    let inside = |place| map.is_in(district, place);
    map.road(number)
        .is_some_and(|road| inside(road.start) && !inside(road.end))
}
