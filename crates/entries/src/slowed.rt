//! A table of slowed roads.
ghost use Rattle.std.specs.Prelude.{◌≡◌, ℕ, Ok, length, MatchResult};
ghost use Rattle.entries.specs.Entries.{Limited};
ghost use Rattle.entries.specs.Slowdowns.{slow_road};
ghost use Rattle.entries.specs.Tables.{figure, set_answer, Slowed};

use crate::entry::Entry;
use crate::refusals::Refusal;
use crate::slowdown::{Figure, Slowdown};
use crate::tables::SlowedRoads;
use map::numbers::RoadId;

impl Entry for Figure {
    ghost road = { slow_road };

    ghost again = { Ok tt };

    fn blank() -> Self {
        Figure {
            road: RoadId(0),
            seconds: 0,
        }
    }

    fn road(&self) -> RoadId {
        self.road
    }

    fn renew(&mut self, other: Self) -> Result<(), Refusal> {
        self.rewrite(other.seconds);
        Ok(())
    }
}

impl SlowedRoads {
    /// The figure of a road.
    pub fn figure(&self, road: RoadId) -> Option<u16>
        ensures figure { result ≡ figure self.now.entries.used road.0 }
    {
        Some(self.get(road)?.seconds)
    }

    /// Gives a road a figure, in place of the one that it may have.
    pub fn set(&mut self, road: RoadId, seconds: u16) -> Result<(), Refusal>
        ensures answer { result ≡ set_answer seconds (figure self.old.entries.used road.0) (length self.old.entries.used) }
        ensures after { MatchResult result (λ _. Slowed self.old.entries.used self.new.entries.used road.0 seconds) (λ _. self.new ≡ self.old) }
    {
        self.put(Figure::new(Slowdown { road, seconds })?)
    }
}
