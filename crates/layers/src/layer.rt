//! Maps over maps.
ghost use Rattle.std.specs.Prelude.{◌≡◌, ℕ, true, List, [], length, is_some, None, ◌==◌};
ghost use Rattle.std.specs.Option.{option_map};
ghost use Rattle.map.specs.Through.{through};
ghost use Rattle.entries.specs.Entries.{entry_for, Limited};
ghost use Rattle.layers.specs.Histories.{history_of};
ghost use Rattle.layers.specs.Layers.{Left, count_by, said_by, answer_by};

use crate::kinds::Kind;
use entries::entry::{Entry, Places};
use entries::held::Held;
use entries::refusals::Refusal;
use entries::tables::Entries;
use fringe::place::Place;
use map::maps::Map;
use map::numbers::{District, RoadId};
use map::roads::Road;

/// A layer over a map: up to 64 of its roads have an entry and read by it, and all else reads as below.
///
/// The map below may change beneath the layer, as where it is a layer itself.
#[derive(Drop)]
pub struct Layer<G, E: Entry, A: Places<E>> {
    pub below: G,
    roads: Held<E, A>,
}

impl<G, E: Kind, A: Places<E>> Layer<G, E, A> {
    /// A layer without entries.
    pub fn new(below: G) -> Self
        ensures below { result.below ≡ below }
        ensures history { Left E.Entry.road E.Kind.rules [] result.roads.entries.used }
    {
        Layer {
            below,
            roads: Held {
                entries: no_entries(),
            },
        }
    }

    /// Whether the layer has no entry. One counts even where the road reads the same below.
    pub fn is_empty(&self) -> bool
        ensures count { result ≡ (length self.now.roads.entries.used == 0) }
        ensures none { result ≡ true → (q : ℕ) → entry_for E.Entry.road self.now.roads.entries.used q ≡ None }
        ensures limits { Limited E.Entry.road self.now.roads.entries }
        ensures history { (h : List E.Call) → Left E.Entry.road E.Kind.rules h self.now.roads.entries.used → result ≡ (count_by E.Kind.rules h == 0) }
    {
        self.roads.entries.is_empty()
    }
}

impl<G: Map, E: Kind, A: Places<E>> Layer<G, E, A> {
    ghost use Rattle.layers.specs.Calls.{Called};

    /// Performs a call.
    pub(crate) fn call(&mut self, call: E::Call) -> Result<(), Refusal>
        ensures { Called E.Entry.road E.Entry.again E.Kind.rules (G.Map.model self.old.below) call self.old self.new result }
    {
        self.below
            .road(E::road_named(call))
            .ok_or(Refusal::NoSuchRoad)?;
        self.change(call)
    }

    /// Performs the calls in turn on a new layer over the map, whether they are accepted or refused.
    pub fn run(below: G, calls: &[E::Call]) -> Self
        ensures below { result.below ≡ below }
        ensures history { Left E.Entry.road E.Kind.rules (history_of (answer_by E.Entry.again E.Kind.rules (G.Map.model below)) [] calls.now) result.roads.entries.used }
    {
        let mut layer = Layer::new(below);
        layer.perform(calls);
        layer
    }

    /// Performs a call on a road that the map below has.
    fn change(&mut self, call: E::Call) -> Result<(), Refusal>
        requires { is_some ((G.Map.model self.old.below).road (E.Kind.rules.named call)) ≡ true }
        ensures { Called E.Entry.road E.Entry.again E.Kind.rules (G.Map.model self.old.below) call self.old self.new result }
    {
        match E::entry(call)? {
            Some(entry) => self.roads.entries.put(entry),
            None => self.roads.entries.remove(E::road_named(call)),
        }
    }

    /// Performs the calls in turn.
    fn perform(&mut self, calls: &[E::Call])
        ensures below { self.new.below ≡ self.old.below }
        ensures history { (h : List E.Call) → Left E.Entry.road E.Kind.rules h self.old.roads.entries.used → Left E.Entry.road E.Kind.rules (history_of (answer_by E.Entry.again E.Kind.rules (G.Map.model self.old.below)) h calls.now) self.new.roads.entries.used }
    {
        for call in calls {
            let _ = self.call(*call);
        }
    }
}

/// No entries: what a history without calls leaves.
fn no_entries<E: Kind, A: Places<E>>() -> Entries<E, A>
    ensures left { Left E.Entry.road E.Kind.rules [] result.used }
    ensures limits { Limited E.Entry.road result }
{
    Entries::new()
}

impl<G: Map, E: Kind, A: Places<E>> Map for Layer<G, E, A> {
    ghost model = { λ c. through (λ r. E.Kind.rules.reads (E.Kind.rules.shows (entry_for E.Entry.road c.roads.entries.used r))) (G.Map.model c.below) };

    ghost sound = { λ c. E.Kind.well (entry_for E.Entry.road c.roads.entries.used) (G.Map.model c.below) (G.Map.sound c.below) };

    fn places(&self) -> usize {
        self.below.places()
    }

    fn districts(&self) -> usize {
        self.below.districts()
    }

    fn roads(&self) -> usize {
        self.below.roads()
    }

    fn district(&self, place: Place) -> Option<District> {
        self.below.district(place)
    }

    fn road(&self, number: RoadId) -> Option<Road>
        ensures read { result ≡ option_map (E.Kind.rules.reads (E.Kind.rules.shows (entry_for E.Entry.road self.now.roads.entries.used number.0))) ((G.Map.model self.now.below).road number.0) }
        ensures history { (h : List E.Call) → Left E.Entry.road E.Kind.rules h self.now.roads.entries.used → result ≡ option_map (E.Kind.rules.reads (said_by E.Kind.rules h number.0)) ((G.Map.model self.now.below).road number.0) }
    {
        let road = self.below.road(number)?;
        Some(E::read(self.roads.entries.get(number), road))
    }

    fn departure(&self, place: Place, j: usize) -> Option<RoadId> {
        self.below.departure(place, j)
    }

    fn arrival(&self, place: Place, j: usize) -> Option<RoadId> {
        self.below.arrival(place, j)
    }
}
