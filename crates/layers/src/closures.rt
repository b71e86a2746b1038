//! Roads read as closed.
ghost use Rattle.layers.specs.Closures.{Closing, Opening};

use crate::calls::ClosureCall;
use crate::kinds::Kind;
use crate::layer::Layer;
use entries::refusals::Refusal;
use entries::tables::ROOM;
use map::maps::Map;
use map::numbers::RoadId;
use map::roads::{Mark, Road};

/// A layer that reads up to 64 roads as closed.
pub type Closures<G> = Layer<G, RoadId, [RoadId; ROOM]>;

impl Kind for RoadId {
    ghost use Rattle.std.specs.Prelude.{◌≡◌, Bool, is_some};
    ghost use Rattle.entries.specs.Readings.{shut};
    ghost use Rattle.layers.specs.Closures.{closure_rules};
    ghost use Rattle.layers.specs.Laws.{closure_laws};
    ghost use Rattle.entries.proofs.Readings.{closing_well};

    type Call = ClosureCall;

    ghost Said = { Bool };

    ghost rules = { closure_rules };

    ghost well = { λ own m. closing_well (λ r. is_some (own r)) m };

    // A call is data, and each of its two cases says one thing.
    fn road_named(call: ClosureCall) -> RoadId {
        match call {
            ClosureCall::Close(road) | ClosureCall::Open(road) => road,
        }
    }

    fn entry(call: ClosureCall) -> Result<Option<Self>, Refusal> {
        match call {
            ClosureCall::Close(road) => Ok(Some(road)),
            ClosureCall::Open(_) => Ok(None),
        }
    }

    fn read(own: Option<Self>, road: Road) -> Road
        ensures { result ≡ shut (is_some own) road }
    {
        match own {
            Some(_) => Road {
                mark: Mark::Closed,
                ..road
            },
            None => road,
        }
    }

    ghost laws = { closure_laws };
}

impl<G: Map> Closures<G> {
    /// Reads a road as closed from now on.
    pub fn close(&mut self, road: RoadId) -> Result<(), Refusal>
        ensures { Closing (G.Map.model self.old.below) road self.old self.new result }
    {
        self.call(ClosureCall::Close(road))
    }

    /// Reads a road as below again.
    pub fn open(&mut self, road: RoadId) -> Result<(), Refusal>
        ensures { Opening (G.Map.model self.old.below) road self.old self.new result }
    {
        self.call(ClosureCall::Open(road))
    }
}
