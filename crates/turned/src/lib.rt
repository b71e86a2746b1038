//! A map turned round, over any map that it borrows.
#![tactic(auto)]

ghost use Rattle.std.specs.Prelude.{◌≡◌};
ghost use Rattle.std.specs.Option.{option_map};
ghost use Rattle.map.specs.Turned.{reversed, turned_round};
ghost use Rattle.map.proofs.Turned.{turned_keeps_rules};

use fringe::place::Place;
use map::maps::Map;
use map::numbers::{District, RoadId};
use map::roads::Road;

/// A map with each road driven the other way, so that a search from a goal runs against the roads.
///
/// It is made as `Turned { of: &map }`, over any map.
#[derive(Drop)]
pub struct Turned<'a, G> {
    pub of: &'a G,
}

/// The road driven the other way.
fn reversed(road: Road) -> Road
    ensures { result ≡ reversed road }
{
    Road {
        start: road.end,
        end: road.start,
        ..road
    }
}

impl<'a, G: Map> Map for Turned<'a, G> {
    ghost model = { λ t. turned_round (G.Map.model t.of.now) };

    ghost sound = { λ t. turned_keeps_rules (G.Map.model t.of.now) (G.Map.sound t.of.now) };

    fn places(&self) -> usize {
        self.of.places()
    }

    fn districts(&self) -> usize {
        self.of.districts()
    }

    fn roads(&self) -> usize {
        self.of.roads()
    }

    fn district(&self, place: Place) -> Option<District> {
        self.of.district(place)
    }

    /// The road below with its ends swapped. A map that is turned twice is the map.
    fn road(&self, number: RoadId) -> Option<Road>
        ensures read { result ≡ option_map reversed ((G.Map.model self.now.of.now).road number.0) }
        ensures twice { turned_round (turned_round (G.Map.model self.now.of.now)) ≡ G.Map.model self.now.of.now }
    {
        let road = self.of.road(number)?;
        Some(reversed(road))
    }

    fn departure(&self, place: Place, j: usize) -> Option<RoadId> {
        self.of.arrival(place, j)
    }

    fn arrival(&self, place: Place, j: usize) -> Option<RoadId> {
        self.of.departure(place, j)
    }
}
