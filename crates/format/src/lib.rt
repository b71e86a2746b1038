//! What the bytes of a cartridge say: its refusals, and under specs/ the one definition of what a byte string means.
//! The reader itself is the crate `cartridge`.
#![tactic(auto)]

ghost use Rattle.std.specs.Prelude.{◌≡◌};
ghost use Rattle.format.specs.Refusals.{number_of, payload_of};

use fringe::place::Place;
use map::numbers::{District, RoadId};

/// Why a byte string is no cartridge, and where that shows first.
#[derive(Clone, Copy, PartialEq, Eq, Debug)]
pub enum Refusal {
    /// Fewer bytes are left than the field at this offset needs.
    Cut(usize),
    /// At this offset stands another tag than the next one, or a byte after the last field.
    WrongTag(usize),
    /// The field at this offset has another length than the counts ask for.
    WrongLength(usize),
    /// A count in the field at this offset is out of range.
    WrongCount(usize),
    /// The district of this place is not below the number of districts.
    NoSuchDistrict(Place),
    /// No place is in this district.
    EmptyDistrict(District),
    /// The record of this road breaks a rule of maps, or does not rise.
    WrongRoad(RoadId),
    /// The arrival at this index is no road's number, or does not rise.
    WrongArrival(usize),
}

impl Refusal {
    /// The refusal's number.
    // A match, since a case that carries something has no discriminant to read it from.
    pub fn number(self) -> u8
        ensures { result ≡ number_of self }
    {
        match self {
            Refusal::Cut(_) => 1,
            Refusal::WrongTag(_) => 2,
            Refusal::WrongLength(_) => 3,
            Refusal::WrongCount(_) => 4,
            Refusal::NoSuchDistrict(_) => 5,
            Refusal::EmptyDistrict(_) => 6,
            Refusal::WrongRoad(_) => 7,
            Refusal::WrongArrival(_) => 8,
        }
    }

    /// What the refusal carries: an offset, a place, a district or an entry.
    pub fn payload(self) -> usize
        ensures { result ≡ payload_of self }
    {
        match self {
            Refusal::Cut(offset)
            | Refusal::WrongTag(offset)
            | Refusal::WrongLength(offset)
            | Refusal::WrongCount(offset) => offset,
            Refusal::NoSuchDistrict(place) => usize::from(place),
            Refusal::EmptyDistrict(district) => usize::from(district),
            Refusal::WrongRoad(road) => usize::from(road),
            Refusal::WrongArrival(index) => index,
        }
    }
}
