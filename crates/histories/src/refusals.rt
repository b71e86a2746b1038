//! Why a unit refuses a call.
ghost use Rattle.std.specs.Prelude.{◌≡◌};
ghost use Rattle.histories.specs.declared.refusals.Refusal.TheVariants.{Layer};
ghost use Rattle.histories.specs.Refusals.{number_of};

use entries::refusals::Refusal as LayerRefusal;

/// Why a unit refuses a call. A refused call changes nothing.
#[derive(Clone, Copy, PartialEq, Eq, Debug)]
pub enum Refusal {
    /// A layer refuses the call.
    Layer(LayerRefusal),
    /// The base map has no district of that number.
    NoSuchDistrict,
    /// The base map has no place of that number.
    NoSuchPlace,
    /// A row of labels is shorter than the places are many.
    ShortRow,
    /// A fringe has no room for a place of the map.
    SmallFringe,
    /// The list is too short for the route.
    ShortList,
}

impl Refusal {
    /// The refusal's number.
    // A match, since one case carries a refusal with a number of its own.
    pub fn number(self) -> u8
        ensures { result ≡ number_of self }
    {
        match self {
            Refusal::Layer(own) => own.number(),
            Refusal::NoSuchDistrict => 21,
            Refusal::NoSuchPlace => 22,
            Refusal::ShortRow => 23,
            Refusal::SmallFringe => 24,
            Refusal::ShortList => 25,
        }
    }
}

impl From<LayerRefusal> for Refusal {
    ghost from_gives = { λ e r. r ≡ Layer e };

    fn from(refusal: LayerRefusal) -> Refusal {
        Refusal::Layer(refusal)
    }
}
