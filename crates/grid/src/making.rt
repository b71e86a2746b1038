//! Making a grid.
ghost use Rattle.std.specs.Prelude.{◌≡◌, ◌&&◌, nat_le};
ghost use Rattle.grid.specs.Made.{figures, Made};

use crate::grids::Grid;
use crate::refusals::Refusal;
use crate::tiles::tiles_along;

/// Whether so many rows or columns, or such a side, are in range.
fn countable(n: u16) -> bool
    ensures { result ≡ (nat_le 1 n && nat_le n 32) }
{
    (1..=32).contains(&n)
}

impl Grid {
    /// The grid with so many rows and columns, tiles of such a side, and roads that take so many seconds and are so
    /// steep, in per mille. Figures out of range and over 64 tiles are refused.
    pub fn new(
        rows: u16,
        columns: u16,
        side: u16,
        seconds: u16,
        steepness: u16,
    ) -> Result<Grid, Refusal>
        ensures { Made (figures rows columns side seconds steepness) result }
    {
        let counted = countable(rows) && countable(columns) && countable(side);
        if !counted || seconds > 60000 || steepness > 1000 {
            return Err(Refusal::OutOfRange);
        }
        if tiles_along(columns, side) * tiles_along(rows, side) > 64 {
            return Err(Refusal::OutOfRange);
        }
        Ok(Grid {
            rows,
            columns,
            side,
            seconds,
            steepness,
        })
    }
}
