//! The rows of the table.
ghost use Rattle.std.specs.Prelude.{◌≡◌, ℕ, None, slice_index_or};
ghost use Rattle.table.specs.Entries.{entry_at, Filled};

use crate::entry::Entry;
use map::numbers::District;

/// How many districts the table has room for.
const DISTRICTS: usize = 64;

/// For each district the entries from it to every district, once its row is prepared.
#[derive(Drop)]
pub struct Table {
    rows: [Option<[Entry; 64]>; 64],
}

/// The rows of a new table.
fn none_prepared() -> [Option<[Entry; 64]>; 64]
    ensures { (i : ℕ) → slice_index_or result i None ≡ None }
{
    [None; DISTRICTS]
}

impl Table {
    /// A table with no row prepared.
    pub fn new() -> Table
        ensures { (i j : ℕ) → entry_at result i j ≡ None }
    {
        Table {
            rows: none_prepared(),
        }
    }

    /// The entry from one district to another, absent where the row is not prepared or a number is out of range.
    pub fn entry(&self, from: District, to: District) -> Option<Entry>
        ensures { result ≡ entry_at self.now from.0 to.0 }
    {
        let row = self.rows.get(usize::from(from))?.as_ref()?;
        row.get(usize::from(to)).copied()
    }

    /// Puts the entries into a row, which is prepared from now on. A number out of range changes nothing.
    pub fn fill(&mut self, row: District, entries: &[Entry; 64])
        ensures { Filled self.old self.new row.0 entries.now }
    {
        let row = usize::from(row);
        if row < DISTRICTS {
            self.rows[row] = Some(*entries);
        }
    }
}
