//! The four ways out of a place of a grid.

/// A direction in which a road of a grid leads.
#[derive(Clone, Copy, PartialEq, Eq, Debug)]
pub enum Direction {
    North,
    West,
    East,
    South,
}
