//! A table of closed roads.
ghost use Rattle.std.specs.Prelude.{◌≡◌, Err, length, MatchResult};
ghost use Rattle.entries.specs.declared.refusals.Refusal.TheVariants.{AlreadyClosed};
ghost use Rattle.entries.specs.Entries.{closed_road, Limited};
ghost use Rattle.entries.specs.Tables.{holds, add_answer, Added};

use crate::entry::Entry;
use crate::refusals::Refusal;
use crate::tables::ClosedRoads;
use map::numbers::RoadId;

impl Entry for RoadId {
    ghost road = { closed_road };

    ghost again = { Err AlreadyClosed };

    fn blank() -> Self {
        RoadId(0)
    }

    fn road(&self) -> RoadId {
        *self
    }

    fn renew(&mut self, _: Self) -> Result<(), Refusal> {
        Err(Refusal::AlreadyClosed)
    }
}

impl ClosedRoads {
    /// Whether a road is on the table.
    pub fn holds(&self, road: RoadId) -> bool
        ensures holds { result ≡ holds self.now.entries.used road.0 }
    {
        self.get(road).is_some()
    }

    /// Puts a road on the table.
    pub fn add(&mut self, road: RoadId) -> Result<(), Refusal>
        ensures answer { result ≡ add_answer (holds self.old.entries.used road.0) (length self.old.entries.used) }
        ensures after { MatchResult result (λ _. Added self.old.entries.used self.new.entries.used road.0) (λ _. self.new ≡ self.old) }
    {
        self.put(road)
    }
}
