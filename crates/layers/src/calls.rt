//! The calls that change a layer.
use map::numbers::RoadId;

/// A call that changes a layer of closures.
#[derive(Clone, Copy, PartialEq, Eq, Debug)]
pub enum ClosureCall {
    Close(RoadId),
    Open(RoadId),
}

/// A call that changes a layer of slowdowns.
#[derive(Clone, Copy, PartialEq, Eq, Debug)]
pub enum SlowdownCall {
    Slow(RoadId, u16),
    Clear(RoadId),
}
