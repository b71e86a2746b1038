//! The places of a grid, each with its grid.
ghost use Rattle.std.specs.Prelude.{◌≡◌, ◌<◌, ◌≤◌, MatchOption};
ghost use Rattle.map.specs.Grids.{place_count, row_of, column_of};
ghost use Rattle.grid.specs.Made.{figures_of};

use crate::grids::Grid;
use fringe::Place;

/// A place that its grid has.
#[derive(Clone, Copy)]
pub(crate) struct Spot<'a> {
    pub(crate) grid: &'a Grid,
    pub(crate) place: u16,
    ghost there: { place < place_count (figures_of grid.now) },
}

impl Grid {
    /// The place on this grid, if it has it.
    pub(crate) fn spot(&self, place: Place) -> Option<Spot<'_>>
        ensures { MatchOption result (place_count (figures_of self.now) ≤ place.0) (λ s. (s.grid.now ≡ self.now) × (s.place ≡ place.0)) }
    {
        // A number against a count, and no `then`: its closure would not know that the place is there.
        if place.0 < self.place_count() {
            Some(Spot {
                grid: self,
                place: place.0,
            })
        } else {
            None
        }
    }
}

impl Spot<'_> {
    /// Its row.
    pub(crate) fn row(&self) -> u16
        ensures value { result ≡ row_of (figures_of self.now.grid.now) self.now.place }
        ensures known { result < self.now.grid.now.rows }
    {
        self.place / self.grid.columns
    }

    /// Its column.
    pub(crate) fn column(&self) -> u16
        ensures value { result ≡ column_of (figures_of self.now.grid.now) self.now.place }
        ensures known { result < self.now.grid.now.columns }
    {
        self.place % self.grid.columns
    }
}
