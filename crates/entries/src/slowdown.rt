//! The figure of one road.
ghost use Rattle.std.specs.Prelude.{◌≡◌, ◌≤◌};

use crate::refusals::Refusal;
use map::numbers::RoadId;

/// The longest that a road may take, in seconds.
pub const LONGEST: u16 = 60_000;

/// A road and its figure: how many seconds it is to take at least.
#[derive(Clone, Copy, PartialEq, Eq, Debug)]
pub struct Slowdown {
    pub road: RoadId,
    pub seconds: u16,
}

/// A slowdown that a table may keep: its seconds are 60,000 or fewer.
#[derive(Clone, Copy, PartialEq, Eq, Debug)]
pub struct Figure {
    pub road: RoadId,
    pub seconds: u16,
    pub ghost short: { seconds ≤ 60000 },
}

impl Figure {
    ghost use Rattle.entries.specs.Slowdowns.{slowdown};

    /// The figure that a slowdown asks for, if it is not too long.
    pub fn new(asked: Slowdown) -> Result<Self, Refusal>
        ensures { result ≡ slowdown asked.road asked.seconds }
    {
        let Slowdown { road, seconds } = asked;
        if seconds > LONGEST {
            return Err(Refusal::TooSlow);
        }
        Ok(Figure { road, seconds })
    }

    /// Gives the road another figure.
    pub(crate) fn rewrite(&mut self, seconds: u16)
        requires { seconds ≤ 60000 }
        ensures road { self.new.road ≡ self.old.road }
        ensures seconds { self.new.seconds ≡ seconds }
    {
        self.seconds = seconds;
    }
}
