//! What it is to be a map.
ghost use Rattle.std.specs.Prelude.{◌≡◌};
ghost use Rattle.map.specs.Model.{MapModel, WellFormed, district_at, is_in, leaving, listed_at};

use crate::departures::Departures;
use crate::numbers::{District, RoadId};
use crate::roads::Road;
use fringe::place::Place;

/// A mine map. Whatever is out of range is answered by absence.
///
/// `model` says what a map means, and `sound` that the meaning keeps the rules of maps. It is a member with a proof for
/// its value, and no law, since a map that borrows what it reads from owes it too.
pub trait Map {
    ghost model: { Self → MapModel };

    ghost sound: { (m : Self) → WellFormed (model m) };

    /// How many places there are.
    fn places(&self) -> usize
        ensures { result ≡ (model self.now).places };

    /// How many districts there are.
    fn districts(&self) -> usize
        ensures { result ≡ (model self.now).districts };

    /// How many road numbers there are.
    fn roads(&self) -> usize
        ensures { result ≡ (model self.now).roads };

    /// The district of a place.
    fn district(&self, place: Place) -> Option<District>
        ensures { result ≡ district_at (model self.now) place.0 };

    /// The road of a number.
    fn road(&self, number: RoadId) -> Option<Road>
        ensures { result ≡ (model self.now).road number.0 };

    /// The j-th road that leaves a place, counted from 0.
    fn departure(&self, place: Place, j: usize) -> Option<RoadId>
        ensures { result ≡ listed_at (model self.now).places (model self.now).departures place.0 j };

    /// The j-th road that ends at a place, counted from 0.
    fn arrival(&self, place: Place, j: usize) -> Option<RoadId>
        ensures { result ≡ listed_at (model self.now).places (model self.now).arrivals place.0 j };

    /// Whether a place is one of the district.
    final fn is_in(&self, district: District, place: Place) -> bool
        ensures { result ≡ is_in (model self.now) district.0 place.0 }
    {
        self.district(place) == Some(district)
    }

    /// The roads that leave a place, in the order of its departures.
    final fn departures(&self, place: Place) -> Departures<Self>
        ensures { result ≡ leaving (model self.now) place.0 }
    {
        Departures {
            map: self,
            place,
            next: 0,
        }
    }
}
