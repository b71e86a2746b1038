//! Kinds of layers.
ghost use Rattle.std.specs.Prelude.{◌≡◌, ℕ, Option};
ghost use Rattle.map.specs.Model.{MapModel, WellFormed};
ghost use Rattle.map.specs.Through.{through};
ghost use Rattle.layers.specs.Rules.{Rules, RuleLaws};

use entries::entry::Entry;
use entries::refusals::Refusal;
use map::numbers::RoadId;
use map::roads::Road;

/// A kind of layer, told by the entries that it keeps.
///
/// `Said` is what is said of a road, and `rules` what the kind goes by: what entries and calls say of a road, and how a
/// road reads of which that is said. `well` is that a map stays well formed so, and `laws` that a call says of its road
/// what the entry says that it gives it.
pub trait Kind: Entry {
    /// The calls that change a layer of this kind.
    type Call: Copy;

    ghost Said: { Type 0 };

    ghost rules: { Rules Self Self.Call Said };

    ghost well: { (own : ℕ → Option Self) (m : MapModel) → WellFormed m → WellFormed (through (λ r. rules.reads (rules.shows (own r))) m) };

    /// The road that a call names.
    fn road_named(call: Self::Call) -> RoadId
        ensures { result.0 ≡ rules.named call };

    /// The entry that a call gives its road, if any, or why there is none.
    fn entry(call: Self::Call) -> Result<Option<Self>, Refusal>
        ensures { result ≡ rules.entry_of call };

    /// The road as it reads with that entry, if any.
    fn read(own: Option<Self>, road: Road) -> Road
        ensures { result ≡ rules.reads (rules.shows own) road };

    ghost laws: { RuleLaws Self.road rules };
}
