//! The number of a place.
ghost use Rattle.std.specs.Prelude.{◌≡◌};

/// A place by its number, counted from 0.
#[derive(Clone, Copy, PartialEq, Eq, PartialOrd, Ord, Debug)]
pub struct Place(pub u16);

impl From<Place> for usize {
    ghost from_gives = { λ p r. r ≡ p.0 };

    fn from(place: Place) -> usize {
        usize::from(place.0)
    }
}
