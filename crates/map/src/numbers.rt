//! The numbers of roads and districts. With `Place` they are three sorts, and none stands in for another.
ghost use Rattle.std.specs.Prelude.{◌≡◌};

/// A road by its number, counted from 0.
#[derive(Clone, Copy, PartialEq, Eq, PartialOrd, Ord, Debug)]
pub struct RoadId(pub u16);

/// A district by its number, counted from 0.
#[derive(Clone, Copy, PartialEq, Eq, PartialOrd, Ord, Debug)]
pub struct District(pub u8);

impl From<RoadId> for usize {
    ghost from_gives = { λ r n. n ≡ r.0 };

    fn from(road: RoadId) -> usize {
        usize::from(road.0)
    }
}

impl From<District> for usize {
    ghost from_gives = { λ d n. n ≡ d.0 };

    fn from(district: District) -> usize {
        usize::from(district.0)
    }
}
