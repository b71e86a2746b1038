//! What a place lists, found by halving in entries that are sorted by their places.
ghost use Rattle.std.specs.Prelude.{◌≡◌, ℕ, ◌<◌, ◌≤◌, length, slice_index_or, Some, Option, IfSome};
ghost use Rattle.std.specs.Fn.{FnReturnsAt};
ghost use Rattle.map.specs.Model.{listed_at};
ghost use Rattle.format.specs.Bytes.{places};
ghost use Rattle.format.specs.Reading.{map_in};
ghost use Rattle.cartridge.specs.Listings.{Begins, Climbs, NthOf};

use crate::cartridges::Cartridge;
use crate::fields::{arrival_in, road_in};
use fringe::Place;
use map::RoadId;

/// Where the entries at a place begin, or would. An entry is at the place that `place_of` gives.
fn first_at<T, F: Fn(&T) -> Option<u16>>(entries: &[T], place_of: &F, place: u16) -> usize
    requires { F.IsAlwaysCallable place_of.now }
    ensures within { result ≤ length entries.now }
    ensures begins { (k : T → Option ℕ) (key : ℕ → ℕ)
        → ((x : T) (p : Option ℕ) → FnReturnsAt F.Fn place_of.now x p → p ≡ k x)
        → ((i : ℕ) (d : T) → i < length entries.now → k (slice_index_or entries.now i d) ≡ Some (key i))
        → Climbs key (length entries.now)
        → Begins key (length entries.now) place result }
{
    entries.partition_point(|entry| place_of(entry) < Some(place))
}

/// The index of the j-th of the entries at a place.
pub(crate) fn nth_at<T, F: Fn(&T) -> Option<u16>>(
    entries: &[T],
    place_of: F,
    place: u16,
    j: usize,
) -> Option<usize>
    requires { F.IsAlwaysCallable place_of }
    ensures within { IfSome result (λ i. i < length entries.now) }
    ensures nth { (k : T → Option ℕ) (key : ℕ → ℕ)
        → ((x : T) (p : Option ℕ) → FnReturnsAt F.Fn place_of x p → p ≡ k x)
        → ((i : ℕ) (d : T) → i < length entries.now → k (slice_index_or entries.now i d) ≡ Some (key i))
        → Climbs key (length entries.now)
        → NthOf key (length entries.now) place j result }
{
    let first = first_at(entries, &place_of, place);
    let entry = entries[first..].get(j)?;
    (place_of(entry) == Some(place)).then_some(first + j)
}

impl Cartridge<'_> {
    /// The j-th road that leaves a place: the records of roads are sorted by their starts.
    pub(crate) fn nth_departure(&self, place: Place, j: usize) -> Option<RoadId>
        ensures { let b = self.now.bytes.now in result ≡ listed_at (places b) (map_in b).departures place.0 j }
    {
        let roads = self.fields().roads();
        nth_at(roads, |entry| Some(road_in(entry).start.0), place.0, j).map(|r| RoadId(r as u16))
    }

    /// The j-th road that ends at a place: the arrivals are sorted by the ends of their roads.
    pub(crate) fn nth_arrival(&self, place: Place, j: usize) -> Option<RoadId>
        ensures { let b = self.now.bytes.now in result ≡ listed_at (places b) (map_in b).arrivals place.0 j }
    {
        let fields = self.fields();
        let arrivals = fields.arrivals();
        nth_at(arrivals, |entry| fields.end_of(entry), place.0, j).map(|i| arrival_in(&arrivals[i]))
    }
}
