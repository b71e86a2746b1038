//! Whether bytes are a cartridge, and if not, what is wrong with them first.
ghost use Rattle.std.specs.Prelude.{◌≡◌, ℕ, ◌+◌, ◌*◌, ◌<◌, ◌≤◌, ◌&&◌, length, nat_lt, Some, None, MatchResult};
ghost use Rattle.format.specs.Bytes.{number, whole, roads};
ghost use Rattle.format.specs.Reading.{verdict, field, fields, counts, known_districts, inhabited_districts, has_place, within_limits, road_of, right_roads, right_arrivals, contents, judged};
ghost use Rattle.cartridge.specs.Orders.{key_if, by_start, by_end};
ghost use Rattle.cartridge.specs.Records.{road_in};

use crate::fields::{Fields, arrival_in, number_at, place_count, road_count, road_in};
use crate::orders::first_fall;
use format::Refusal;
use fringe::Place;
use map::{District, Road, RoadId};

/// The tags of a cartridge's fields, in their order.
enum Tag {
    Counts = 1,
    Districts = 2,
    Roads = 3,
    Arrivals = 4,
    End = 15,
}

/// Walks the field at an offset: its tag, its length and its body. Answers where the next one begins.
fn walk_field(bytes: &[u8], offset: usize, tag: u8, size: usize) -> Result<usize, Refusal>
    requires { offset ≤ length bytes.now }
    ensures { result ≡ verdict (field bytes.now offset tag size) (offset + 3 + size) }
{
    let left = bytes.len() - offset;
    if left < 3 {
        return Err(Refusal::Cut(offset));
    }
    if bytes[offset] != tag {
        return Err(Refusal::WrongTag(offset));
    }
    if usize::from(number_at(bytes, offset + 1)) != size {
        return Err(Refusal::WrongLength(offset));
    }
    if left - 3 < size {
        return Err(Refusal::Cut(offset));
    }
    Ok(offset + 3 + size)
}

/// Walks all fields, each once and in order, with nothing after them.
fn walk(bytes: &[u8]) -> Result<Fields<'_>, Refusal>
    ensures { MatchResult result (λ f. (fields bytes.now ≡ None) × (f.bytes.now ≡ bytes.now)) (λ e. fields bytes.now ≡ Some e) }
{
    let mut offset = walk_field(bytes, 0, Tag::Counts as u8, 5)?;
    let places = usize::from(place_count(bytes));
    let roads = usize::from(road_count(bytes));
    let sizes = [
        (Tag::Districts as u8, places),
        (Tag::Roads as u8, 8 * roads),
        (Tag::Arrivals as u8, 2 * roads),
        (Tag::End as u8, 0),
    ];
    for (tag, size) in sizes {
        offset = walk_field(bytes, offset, tag, size)?;
    }
    if offset < bytes.len() {
        return Err(Refusal::WrongTag(offset));
    }
    Ok(Fields { bytes })
}

/// Whether a road keeps the limits of a map with so many places.
fn keeps_limits(road: Road, places: u16) -> bool
    ensures { result ≡ within_limits places road }
{
    // Numbers of places against a count of them, which is no place.
    road.start.0 < places
        && road.end.0 < places
        && road.start != road.end
        && road.seconds <= 60000
        && road.steepness <= 1000
}

/// By what a road rises: its start and then its end. One that breaks a limit has none.
fn road_key(entry: &[u8; 8], places: u16) -> Option<(u16, u16)>
    ensures { result ≡ key_if (within_limits places (road_in entry.now)) (by_start (road_in entry.now)) }
{
    let road = road_in(entry);
    keeps_limits(road, places).then_some((road.start.0, road.end.0))
}

impl Fields<'_> {
    /// By what an arrival rises: its road's end and then its start. One that is no road's number has none.
    fn arrival_key(&self, entry: &[u8; 2]) -> Option<(u16, u16)>
        ensures { let r = number entry.now 0 in result ≡ key_if (nat_lt r (roads self.now.bytes.now)) (by_end (road_of self.now.bytes.now r)) }
    {
        let road = self.road(arrival_in(entry))?;
        Some((road.end.0, road.start.0))
    }

    /// Judges the three counts.
    fn check_counts(&self) -> Result<(), Refusal>
        ensures { result ≡ verdict (counts self.now.bytes.now) tt }
    {
        let counted = (1..=1024).contains(&self.place_count())
            && (1..=64).contains(&self.district_count())
            && self.road_count() <= 4096;
        if counted {
            Ok(())
        } else {
            Err(Refusal::WrongCount(0))
        }
    }

    /// Judges each place's district.
    fn check_districts(&self) -> Result<(), Refusal>
        ensures { result ≡ verdict (known_districts self.now.bytes.now) tt }
    {
        let count = self.district_count();
        let unknown = self.districts().iter().position(|d| *d >= count);
        unknown.map_or(Ok(()), |p| Err(Refusal::NoSuchDistrict(Place(p as u16))))
    }

    /// Judges whether each district has a place.
    fn check_inhabited(&self) -> Result<(), Refusal>
        ensures { result ≡ verdict (inhabited_districts self.now.bytes.now) tt }
    {
        let empty = (0..self.district_count()).find(|d| !self.has_place(*d));
        empty.map_or(Ok(()), |d| Err(Refusal::EmptyDistrict(District(d))))
    }

    /// Whether some place is in the district.
    fn has_place(&self, district: u8) -> bool
        ensures { result ≡ has_place self.now.bytes.now district }
    {
        self.districts().contains(&district)
    }

    /// Judges each road: it keeps the limits, and rises above the one before it by start, then end.
    fn check_roads(&self) -> Result<(), Refusal>
        ensures { result ≡ verdict (right_roads self.now.bytes.now) tt }
    {
        let places = self.place_count();
        let fall = first_fall(self.roads(), |entry| road_key(entry, places));
        fall.map_or(Ok(()), |r| Err(Refusal::WrongRoad(RoadId(r as u16))))
    }

    /// Judges each arrival: it is a road's number, and the road rises above the one before it by end, then start.
    fn check_arrivals(&self) -> Result<(), Refusal>
        ensures { result ≡ verdict (right_arrivals self.now.bytes.now) tt }
    {
        let fall = first_fall(self.arrivals(), |entry| self.arrival_key(entry));
        fall.map_or(Ok(()), |i| Err(Refusal::WrongArrival(i)))
    }

    /// Judges the contents, each over its whole field.
    fn check_contents(&self) -> Result<(), Refusal>
        ensures { result ≡ verdict (contents self.now.bytes.now) tt }
    {
        self.check_counts()?;
        self.check_districts()?;
        self.check_inhabited()?;
        self.check_roads()?;
        self.check_arrivals()
    }
}

/// Judges the bytes: the fields first, then their contents.
pub(crate) fn judge(bytes: &[u8]) -> Result<(), Refusal>
    ensures { result ≡ verdict (judged bytes.now) tt }
{
    walk(bytes)?.check_contents()
}
