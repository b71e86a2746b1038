//! The roads that leave a place, one by one.
ghost use Rattle.std.specs.Prelude.{◌≡◌};
ghost use Rattle.std.specs.Iterator.{YieldsFirstBy, item_count};

use crate::maps::Map;
use crate::numbers::RoadId;
use fringe::place::Place;
use std::marker::Model;

/// The numbers of the roads that leave a place and are still to come.
#[derive(Drop)]
pub struct Departures<'a, G: Map> {
    pub(crate) map: &'a G,
    pub(crate) place: Place,
    pub(crate) next: usize,
}

impl<'a, G: Map> Model for Departures<'a, G> {
    ghost use Rattle.std.specs.Prelude.{ℕ, List, drop};
    ghost use Rattle.map.specs.Model.{leaving};

    ghost Value = { List ℕ };

    ghost view = { λ d. drop d.next (leaving (G.Map.model d.map.now) d.place.0) };
}

impl<'a, G: Map> Iterator for Departures<'a, G> {
    type Item = RoadId;

    ghost next_gives = { YieldsFirstBy (λ r. r.0) (λ d. d) };

    ghost remaining = { item_count (λ d. d) };

    fn next(&mut self) -> Option<RoadId> {
        let number = self.map.departure(self.place, self.next)?;
        self.next += 1;
        Some(number)
    }
}
