//! What a guide says of a settled place.
ghost use Rattle.std.specs.Prelude.{◌≡◌, ◌<◌};
ghost use Rattle.search.specs.Guides.{entry_ahead, facing, is_gate, Reads};
ghost use Rattle.table.specs.Views.{ends_of};

use crate::guides::{Guide, Way};
use borders::is_border;
use fringe::place::Place;
use map::maps::Map;
use map::numbers::District;
use measure::measures::Measure;
use table::{Entry, Table};
use turns::Between;

/// The pair as the side meets it: its own end first.
fn faced(way: Way, pair: Option<(Place, Place)>) -> Option<(Place, Place)>
    ensures { ends_of result ≡ facing way (ends_of pair) }
{
    let (start, end) = pair?;
    match way {
        Way::Forward => Some((start, end)),
        Way::Backward => Some((end, start)),
    }
}

/// The entry between a district and the other side's.
fn entry_ahead(way: Way, table: &Table, here: District, away: District) -> Option<Entry>
    ensures { result ≡ entry_ahead way table.now here.0 away.0 }
{
    match way {
        Way::Forward => table.entry(here, away),
        Way::Backward => table.entry(away, here),
    }
}

/// What an entry says. Where there is none it counts as zero, and its pair counts only where it may be used.
fn between<M: Measure + Copy>(way: Way, pairs: bool, entry: Option<Entry>) -> Between<M>
    ensures { Reads M.Measure.nil M.Measure.decoded way pairs entry result }
{
    match entry {
        Some(found) => {
            let pair = if pairs { faced(way, found.pair) } else { None };
            Between {
                cost: M::from_number(found.number),
                pair,
            }
        }
        None => Between {
            cost: M::zero(),
            pair: None,
        },
    }
}

/// The district of a place. One that the base map does not have counts as of the first.
pub fn district_of<B: Map>(base: &B, place: Place) -> District
    ensures { place.0 < (B.Map.model base.now).places → result.0 ≡ (B.Map.model base.now).district place.0 }
{
    base.district(place).unwrap_or(District(0))
}

impl<'a, B: Map> Guide<'a, B> {
    /// Whether a place is a border place of the side's own district.
    pub fn is_gate(&self, u: Place) -> bool
        ensures { u.0 < (B.Map.model self.now.base.now).places → result ≡ is_gate (B.Map.model self.now.base.now) self.now.home.0 u.0 }
    {
        is_border(self.base, u) && district_of(self.base, u) == self.home
    }

    /// What the table says between the district of a place and the other side's.
    pub fn ahead<M: Measure + Copy>(&self, u: Place) -> Between<M>
        ensures { u.0 < (B.Map.model self.now.base.now).places → Reads M.Measure.nil M.Measure.decoded self.now.way self.now.pairs (entry_ahead self.now.way self.now.table.now ((B.Map.model self.now.base.now).district u.0) self.now.away.0) result }
    {
        let here = district_of(self.base, u);
        between(
            self.way,
            self.pairs,
            entry_ahead(self.way, self.table, here, self.away),
        )
    }
}
