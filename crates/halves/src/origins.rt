//! Where labels come from.
ghost use Rattle.std.specs.Prelude.{◌≡◌};
ghost use Rattle.routes.specs.Labels.{start_at};

use fringe::place::Place;
use map::maps::Map;
use map::numbers::RoadId;

/// The place that a road starts at. A number without a road counts as one from the place 0.
pub fn start_of<G: Map>(map: &G, number: RoadId) -> Place
    ensures { result.0 ≡ start_at (G.Map.model map.now) number.0 }
{
    map.road(number).map_or(Place(0), |road| road.start)
}
