//! What one side of a search knows of a place.
ghost use Rattle.std.specs.Prelude.{◌≡◌};
ghost use Rattle.routes.specs.Parts.{paid, origin_in, waiting, final_cost, finished};

use map::numbers::RoadId;

/// Where a label comes from: the side's own start, or a road.
// Not an `Option` of a road: a start is a place to come from, and nothing is absent.
#[derive(Clone, Copy, PartialEq, Eq, Debug)]
pub enum Origin {
    Start,
    Road(RoadId),
}

/// A place is blank until a road leads to it, then reached at the least cost known so far, and settled once that cost is
/// final.
#[derive(Clone, Copy, PartialEq, Eq, Debug)]
pub enum Label<C> {
    Blank,
    Reached(C, Origin),
    Settled(C, Origin),
}

impl<C: Copy> Label<C> {
    /// The cost up to the place, if it is reached or settled.
    pub fn cost(self) -> Option<C>
        ensures { result ≡ paid self }
    {
        match self {
            Label::Blank => None,
            Label::Reached(cost, _) | Label::Settled(cost, _) => Some(cost),
        }
    }

    /// Where the label comes from, if its place is reached or settled.
    pub fn origin(self) -> Option<Origin>
        ensures { result ≡ origin_in self }
    {
        match self {
            Label::Blank => None,
            Label::Reached(_, origin) | Label::Settled(_, origin) => Some(origin),
        }
    }

    /// The cost up to the place, if it is reached and waits to be settled.
    pub fn waiting_cost(self) -> Option<C>
        ensures { result ≡ waiting self }
    {
        match self {
            Label::Reached(cost, _) => Some(cost),
            Label::Blank | Label::Settled(_, _) => None,
        }
    }

    /// The cost up to the place, if it is settled.
    pub fn final_cost(self) -> Option<C>
        ensures { result ≡ final_cost self }
    {
        match self {
            Label::Settled(cost, _) => Some(cost),
            Label::Blank | Label::Reached(_, _) => None,
        }
    }

    /// The label once its place is settled. One that is not reached stays as it is.
    pub fn settled(self) -> Self
        ensures { result ≡ finished self }
    {
        match self {
            Label::Reached(cost, origin) => Label::Settled(cost, origin),
            other => other,
        }
    }
}
