//! Roads read as slower.
ghost use Rattle.layers.specs.Slowdowns.{Slowing, Clearing};

use crate::calls::SlowdownCall;
use crate::kinds::Kind;
use crate::layer::Layer;
use entries::refusals::Refusal;
use entries::slowdown::{Figure, Slowdown};
use entries::tables::ROOM;
use map::maps::Map;
use map::numbers::RoadId;
use map::roads::Road;

/// A layer in which up to 64 roads have a figure and take at least that many seconds.
pub type Slowdowns<G> = Layer<G, Figure, [Figure; ROOM]>;

impl Kind for Figure {
    ghost use Rattle.std.specs.Prelude.{◌≡◌, ℕ, Option};
    ghost use Rattle.std.specs.Option.{option_map};
    ghost use Rattle.entries.specs.Readings.{slowed};
    ghost use Rattle.layers.specs.Slowdowns.{slowdown_rules};
    ghost use Rattle.layers.specs.Laws.{slowdown_laws};
    ghost use Rattle.entries.proofs.Readings.{slowing_well};

    type Call = SlowdownCall;

    ghost Said = { Option ℕ };

    ghost rules = { slowdown_rules };

    ghost well = { slowing_well };

    // A call is data, and each of its two cases says one thing.
    fn road_named(call: SlowdownCall) -> RoadId {
        match call {
            SlowdownCall::Slow(road, _) | SlowdownCall::Clear(road) => road,
        }
    }

    fn entry(call: SlowdownCall) -> Result<Option<Self>, Refusal> {
        match call {
            SlowdownCall::Slow(road, seconds) => Ok(Some(Figure::new(Slowdown { road, seconds })?)),
            SlowdownCall::Clear(_) => Ok(None),
        }
    }

    fn read(own: Option<Self>, road: Road) -> Road
        ensures { result ≡ slowed (option_map (λ e. e.seconds) own) road }
    {
        match own {
            Some(slowdown) => Road {
                seconds: road.seconds.max(slowdown.seconds),
                ..road
            },
            None => road,
        }
    }

    ghost laws = { slowdown_laws };
}

impl<G: Map> Slowdowns<G> {
    /// Gives a road a figure, in place of the one that it may have.
    pub fn slow(&mut self, road: RoadId, seconds: u16) -> Result<(), Refusal>
        ensures { Slowing (G.Map.model self.old.below) road seconds self.old self.new result }
    {
        self.call(SlowdownCall::Slow(road, seconds))
    }

    /// Takes a road's figure away: it reads as below again.
    pub fn clear(&mut self, road: RoadId) -> Result<(), Refusal>
        ensures { Clearing (G.Map.model self.old.below) road self.old self.new result }
    {
        self.call(SlowdownCall::Clear(road))
    }
}
