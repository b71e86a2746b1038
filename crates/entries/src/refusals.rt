//! Why a layer refuses a call.
ghost use Rattle.std.specs.Prelude.{◌≡◌};
ghost use Rattle.entries.specs.Refusals.{number_of};

/// Why a layer refuses a call. A refused call changes nothing.
#[derive(Clone, Copy, PartialEq, Eq, Debug)]
pub enum Refusal {
    /// The map below has no road of that number.
    NoSuchRoad = 11,
    /// The road is on the layer already.
    AlreadyClosed = 12,
    /// The layer has no entry for the road.
    NoEntry = 13,
    /// The layer has 64 entries.
    Full = 14,
    /// The figure is over 60,000 seconds.
    TooSlow = 15,
}

impl Refusal {
    /// The refusal's number.
    pub fn number(self) -> u8
        ensures { result ≡ number_of self }
    {
        self as u8
    }
}
