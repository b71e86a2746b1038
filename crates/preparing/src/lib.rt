//! Preparing the row of one district from the base map, over any measure, map and fringe, with the work in lent memory.
#![tactic(auto)]

ghost use Rattle.std.specs.Prelude.{◌≡◌, length, replicate};
ghost use Rattle.fringe.specs.Fringes.{Emptied};
ghost use Rattle.routes.specs.declared.labels.Label.TheVariants.{Blank};
ghost use Rattle.preparing.specs.Rows.{Ready, RowPrepared};

pub mod beginning;
mod filling;
mod rooting;
mod spreading;

pub use beginning::begin;
use filling::fill;
use fringe::fringes::Fringe;
use fringe::order::Order;
use fringe::place::Place;
use halves::wipe;
use map::maps::Map;
use map::numbers::District;
use measure::measures::Measure;
use routes::labels::Label;
use spreading::spread;
use table::Entry;

/// The row of a district, and how many places were taken to find it.
#[derive(Clone, Copy)]
pub struct Prepared {
    pub row: [Entry; 64],
    pub taken: usize,
}

/// The row, with the count of places.
fn with_count(row: [Entry; 64], taken: usize) -> Prepared
    ensures { result ≡ record { row = row; taken = taken } }
{
    Prepared { row, taken }
}

/// Prepares the row of a district: a spread from all its places finds the nearest place of each other. At the end all
/// labels are blank and the fringe is empty.
pub fn prepare_row<M: Measure + Copy, G: Map, F: Fringe<M>>(
    map: &G,
    district: District,
    labels: &mut [Label<M>],
    fringe: &mut F,
) -> Prepared
    ensures labels { labels.new ≡ replicate (length labels.old) Blank }
    ensures fringe { Emptied (F.Fringe.meaning fringe.old) (F.Fringe.meaning fringe.new) }
    ensures well { F.Fringe.well fringe.new }
    ensures row { Ready (G.Map.model map.now) district.0 (length labels.old) (F.Fringe.meaning fringe.old).capacity → RowPrepared M.Order.thing M.Order.leq M.Measure.plus M.Measure.nil M.Measure.top M.Measure.cost M.Measure.decoded (G.Map.model map.now) district.0 result }
{
    begin(map, district, labels, fringe);
    let mut firsts: [Option<Place>; 64] = [None; 64];
    let taken = spread(map, labels, fringe, &mut firsts);
    let row = fill(map, district, labels, &firsts);
    wipe(labels, fringe);
    with_count(row, taken)
}
