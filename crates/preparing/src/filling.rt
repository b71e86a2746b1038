//! The row of a district, from the labels at the end of a spread.
ghost use Rattle.std.specs.Prelude.{◌≡◌, ◌<◌};
ghost use Rattle.preparing.specs.Entries.{Lowest, cost_or, OwnEntry, EntryBy, RowBy};
ghost use Rattle.measure.specs.Members.{Lawful};

use crate::rooting::root_of;
use fringe::order::Order;
use fringe::place::Place;
use halves::label_at;
use map::maps::Map;
use map::numbers::District;
use measure::measures::Measure;
use routes::labels::Label;
use table::Entry;

/// The number of a cost, from which the cost comes back.
fn written<M: Measure + Copy>(cost: M) -> u64
    ensures { M.Order.thing (M.Measure.decoded result) ≡ M.Order.thing cost }
{
    let number = cost.number();
    // Reading the number is what promises that the cost comes back.
    let _ = M::from_number(number);
    number
}

/// The cost in a label, and otherwise blocked.
fn cost_in<M: Measure + Copy>(label: Label<M>) -> M
    ensures { result ≡ cost_or M.Measure.top label }
{
    label.cost().unwrap_or(M::blocked())
}

/// The entry of a district by its first settled place, if it has one.
fn entry_by<M: Measure + Copy, G: Map>(map: &G, labels: &[Label<M>], first: Option<Place>) -> Entry
    ensures { EntryBy M.Order.thing M.Measure.decoded M.Measure.top (G.Map.model map.now) labels.now first result }
{
    match first {
        Some(place) => Entry {
            number: written(cost_in(label_at(labels, place))),
            pair: Some((root_of(map, labels, place), place)),
        },
        None => Entry {
            number: written(M::blocked()),
            pair: None,
        },
    }
}

/// The lowest place of a district.
fn lowest<G: Map>(map: &G, district: District) -> Option<Place>
    ensures { Lowest (G.Map.model map.now) district.0 result }
{
    // Of `find` over these places the check does not learn that what it found is the lowest.
    for i in 0..map.places() {
        let place = Place(i as u16);
        if map.is_in(district, place) {
            return Some(place);
        }
    }
    None
}

/// The entry of a district in its own row: nothing, and its lowest place twice.
fn own_entry<M: Measure + Copy, G: Map>(map: &G, district: District) -> Entry
    ensures laws { Lawful M.Order M.Measure.own }
    ensures own { OwnEntry M.Order.thing M.Measure.decoded M.Measure.nil (G.Map.model map.now) district.0 result }
{
    Entry {
        number: written(M::zero()),
        pair: lowest(map, district).map(|place| (place, place)),
    }
}

/// The row of a district, by the first settled place of each other.
pub fn fill<M: Measure + Copy, G: Map>(
    map: &G,
    district: District,
    labels: &[Label<M>],
    firsts: &[Option<Place>; 64],
) -> [Entry; 64]
    ensures laws { Lawful M.Order M.Measure.own }
    ensures row { RowBy M.Order.thing M.Measure.decoded M.Measure.top (G.Map.model map.now) labels.now M.Measure.nil district.0 firsts.now result }
{
    let own = own_entry::<M, G>(map, district);
    let mut row = [own; 64];
    // Of a `map` over the array the proof does not learn which entry stands where.
    for j in 0..64 {
        if j != usize::from(district) {
            row[j] = entry_by(map, labels, firsts[j]);
        }
    }
    row
}
