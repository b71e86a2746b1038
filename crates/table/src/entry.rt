//! An entry of the table.
use fringe::place::Place;

/// From one district to another: the number of the least cost, and the start and end of a way that has it, if there is
/// one.
#[derive(Clone, Copy, PartialEq, Eq, Debug)]
pub struct Entry {
    pub number: u64,
    pub pair: Option<(Place, Place)>,
}
