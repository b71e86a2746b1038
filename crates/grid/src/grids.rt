//! The figures of a grid.
ghost use Rattle.std.specs.Prelude.{◌*◌, ◌≤◌};
ghost use Rattle.map.specs.Grids.{tiles};

/// A grid of pillars, in rows from the north and columns from the west, both counted from 0.
///
/// A place is row × columns + column. Its road 4 × place + d leads north, west, east or south for d from 0 to 3, unless
/// that leaves the grid. All roads are open, take the same time and are equally steep. Square tiles of places are the
/// districts, numbered row by row; those at the east and south edges may be partly filled.
#[derive(Clone, Copy)]
pub struct Grid {
    pub(crate) rows: u16,
    pub(crate) columns: u16,
    pub(crate) side: u16,
    pub(crate) seconds: u16,
    pub(crate) steepness: u16,
    ghost row: { 1 ≤ rows },
    ghost low: { rows ≤ 32 },
    ghost column: { 1 ≤ columns },
    ghost narrow: { columns ≤ 32 },
    ghost sided: { 1 ≤ side },
    ghost small: { side ≤ 32 },
    ghost short: { seconds ≤ 60000 },
    ghost mild: { steepness ≤ 1000 },
    ghost few: { tiles columns side * tiles rows side ≤ 64 },
}
