//! A road of a map.
use fringe::place::Place;

/// Whether a road may be driven.
#[derive(Clone, Copy, PartialEq, Eq, Debug)]
pub enum Mark {
    Open,
    Closed,
}

/// A one-way road: where it starts and ends, how long it takes, and how steep it is in per mille.
#[derive(Clone, Copy, PartialEq, Eq, Debug)]
pub struct Road {
    pub start: Place,
    pub end: Place,
    pub seconds: u16,
    pub steepness: u16,
    pub mark: Mark,
}
