//! The tiles of a grid.
ghost use Rattle.std.specs.Prelude.{◌≡◌, ◌<◌, ◌≤◌};
ghost use Rattle.map.specs.Grids.{tiles, district_of};
ghost use Rattle.grid.specs.Made.{figures_of};

use crate::spots::Spot;

/// How many tiles of a side cover a length. A partly filled one counts.
pub(crate) fn tiles_along(length: u16, side: u16) -> u16
    requires some { 1 ≤ side }
    requires small { side ≤ 32 }
    requires short { length ≤ 32 }
    ensures { result ≡ tiles length side }
{
    (length + side - 1) / side
}

impl Spot<'_> {
    /// The number of the tile that it is in.
    pub(crate) fn tile(&self) -> u16
        ensures number { result ≡ district_of (figures_of self.now.grid.now) self.now.place }
        ensures few { result < 64 }
    {
        let side = self.grid.side;
        self.row() / side * tiles_along(self.grid.columns, side) + self.column() / side
    }
}
