//! The fields of a cartridge, and the entries in them.
ghost use Rattle.std.specs.Prelude.{◌≡◌, ℕ, ◌+◌, ◌*◌, ◌<◌, ◌≤◌, length, slice_index, slice_index_or, cond, nat_lt, Some, None, []};
ghost use Rattle.format.specs.Bytes.{number, places, districts, roads, whole};
ghost use Rattle.format.specs.Reading.{district_of, road_of, arrival_of};
ghost use Rattle.cartridge.specs.Records.{road_in};

use fringe::Place;
use map::{Mark, Road, RoadId};

/// The number in two bytes, the high one first.
pub(crate) fn number_at(bytes: &[u8], at: usize) -> u16
    requires { at + 2 ≤ length bytes.now }
    ensures { result ≡ number bytes.now at }
{
    u16::from_be_bytes([bytes[at], bytes[at + 1]])
}

/// How many places the counts of a cartridge give.
pub(crate) fn place_count(bytes: &[u8]) -> u16
    requires { 8 ≤ length bytes.now }
    ensures { result ≡ places bytes.now }
{
    number_at(bytes, 3)
}

/// How many road numbers they give.
pub(crate) fn road_count(bytes: &[u8]) -> u16
    requires { 8 ≤ length bytes.now }
    ensures { result ≡ roads bytes.now }
{
    number_at(bytes, 6)
}

/// The road of an entry.
pub(crate) fn road_in(entry: &[u8; 8]) -> Road
    ensures { result ≡ road_in entry.now }
{
    Road {
        start: Place(number_at(entry, 0)),
        end: Place(number_at(entry, 2)),
        seconds: number_at(entry, 4),
        steepness: number_at(entry, 6),
        mark: Mark::Open,
    }
}

/// The road number of an arrival.
pub(crate) fn arrival_in(entry: &[u8; 2]) -> RoadId
    ensures { result.0 ≡ number entry.now 0 }
{
    RoadId(number_at(entry, 0))
}

/// Bytes in which all fields of a cartridge stand, each as long as the counts say.
#[derive(Clone, Copy)]
pub(crate) struct Fields<'a> {
    pub(crate) bytes: &'a [u8],
    ghost whole: { whole bytes.now ≤ length bytes.now },
}

impl<'a> Fields<'a> {
    /// How many places there are.
    pub(crate) fn place_count(&self) -> u16
        ensures { result ≡ places self.now.bytes.now }
    {
        place_count(self.bytes)
    }

    /// How many districts there are.
    pub(crate) fn district_count(&self) -> u8
        ensures { result ≡ districts self.now.bytes.now }
    {
        self.bytes[5]
    }

    /// How many road numbers there are.
    pub(crate) fn road_count(&self) -> u16
        ensures { result ≡ roads self.now.bytes.now }
    {
        road_count(self.bytes)
    }

    /// The district of each place.
    pub(crate) fn districts(&self) -> &'a [u8]
        ensures count { length result.now ≡ places self.now.bytes.now }
        ensures few { length result.now ≤ 65535 }
        ensures each { (p : ℕ) → p < places self.now.bytes.now → slice_index result.now p ≡ district_of self.now.bytes.now p }
    {
        let places = usize::from(self.place_count());
        &self.bytes[11..11 + places]
    }

    /// The entry of each road.
    pub(crate) fn roads(&self) -> &'a [[u8; 8]]
        ensures count { length result.now ≡ roads self.now.bytes.now }
        ensures few { length result.now ≤ 65535 }
        ensures each { (r : ℕ) → r < roads self.now.bytes.now → road_in (slice_index_or result.now r []) ≡ road_of self.now.bytes.now r }
    {
        let at = 14 + usize::from(self.place_count());
        let roads = usize::from(self.road_count());
        self.bytes[at..at + 8 * roads].as_chunks().0
    }

    /// The entry of each arrival.
    pub(crate) fn arrivals(&self) -> &'a [[u8; 2]]
        ensures count { length result.now ≡ roads self.now.bytes.now }
        ensures each { (i : ℕ) → i < roads self.now.bytes.now → number (slice_index_or result.now i []) 0 ≡ arrival_of self.now.bytes.now i }
    {
        let roads = usize::from(self.road_count());
        let at = 17 + usize::from(self.place_count()) + 8 * roads;
        self.bytes[at..at + 2 * roads].as_chunks().0
    }

    /// The road of a number.
    pub(crate) fn road(&self, number: RoadId) -> Option<Road>
        ensures { result ≡ cond (nat_lt number.0 (roads self.now.bytes.now)) (Some (road_of self.now.bytes.now number.0)) None }
    {
        self.roads().get(usize::from(number)).map(road_in)
    }

    /// The place at which an arrival's road ends, if it is a road's number.
    pub(crate) fn end_of(&self, entry: &[u8; 2]) -> Option<u16>
        ensures { let r = number entry.now 0 in result ≡ cond (nat_lt r (roads self.now.bytes.now)) (Some (road_of self.now.bytes.now r).end.0) None }
    {
        Some(self.road(arrival_in(entry))?.end.0)
    }
}
