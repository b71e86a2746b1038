//! The four sides of a place.
ghost use Rattle.std.specs.Prelude.{◌≡◌, ◌<◌, ◌≤◌};
ghost use Rattle.map.specs.Grids.{place_count, place_at, neighbour, opposite, road_number, leaving, arriving, present};
ghost use Rattle.grid.specs.Made.{figures_of};
ghost use Rattle.grid.specs.Sides.{nth};

use crate::grids::Grid;
use crate::spots::Spot;
use map::{Direction, RoadId};

/// The directions, each at its number.
pub(crate) const DIRECTIONS: [Direction; 4] = [
    Direction::North,
    Direction::West,
    Direction::East,
    Direction::South,
];

/// The way back. A function, since the crate that declares a type declares its methods.
fn opposite_of(direction: Direction) -> Direction
    ensures { result ≡ opposite direction }
{
    match direction {
        Direction::North => Direction::South,
        Direction::West => Direction::East,
        Direction::East => Direction::West,
        Direction::South => Direction::North,
    }
}

/// The number of the road from a place in a direction.
fn road_number(place: u16, direction: Direction) -> u16
    requires { place < 1024 }
    ensures { result ≡ road_number place direction }
{
    4 * place + direction as u16
}

impl Grid {
    /// How many places there are.
    pub(crate) fn place_count(&self) -> u16
        ensures count { result ≡ place_count (figures_of self.now) }
        ensures few { result ≤ 1024 }
    {
        self.rows * self.columns
    }

    /// The place in a row and a column.
    fn place_at(&self, row: u16, column: u16) -> u16
        requires row { row < self.now.rows }
        requires column { column < self.now.columns }
        ensures { result ≡ place_at (figures_of self.now) row column }
    {
        row * self.columns + column
    }
}

impl Spot<'_> {
    /// The place next to it in a direction.
    pub(crate) fn neighbour(&self, direction: Direction) -> Option<u16>
        ensures { result ≡ neighbour (figures_of self.now.grid.now) self.now.place direction }
    {
        let grid = self.grid;
        let row = self.row();
        let column = self.column();
        // Each direction is a test and a sum of its own.
        match direction {
            Direction::North if row > 0 => Some(grid.place_at(row - 1, column)),
            Direction::West if column > 0 => Some(grid.place_at(row, column - 1)),
            Direction::East if column + 1 < grid.columns => Some(grid.place_at(row, column + 1)),
            Direction::South if row + 1 < grid.rows => Some(grid.place_at(row + 1, column)),
            _ => None,
        }
    }

    /// The number of the road that leaves it in a direction.
    pub(crate) fn leaving_to(&self, direction: Direction) -> Option<u16>
        ensures { result ≡ leaving (figures_of self.now.grid.now) self.now.place direction }
    {
        self.neighbour(direction)?;
        Some(road_number(self.place, direction))
    }

    /// The number of the road that comes to it from a direction.
    pub(crate) fn arriving_from(&self, direction: Direction) -> Option<u16>
        ensures { result ≡ arriving (figures_of self.now.grid.now) self.now.place direction }
    {
        let origin = self.neighbour(direction)?;
        Some(road_number(origin, opposite_of(direction)))
    }
}

/// The j-th road number of those that are there.
pub(crate) fn nth_present(numbers: [Option<u16>; 4], j: usize) -> Option<RoadId>
    ensures { result ≡ nth (present numbers) j }
{
    numbers.into_iter().flatten().nth(j).map(RoadId)
}
