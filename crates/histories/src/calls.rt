//! The calls on a unit.
use fringe::place::Place;
use map::numbers::{District, RoadId};

/// A call on a unit.
#[derive(Clone, Copy, PartialEq, Eq, Debug)]
pub enum Call {
    Prepare(District),
    Close(RoadId),
    Open(RoadId),
    Slow(RoadId, u16),
    Clear(RoadId),
    Question(Place, Place),
}
