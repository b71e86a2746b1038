//! Tables of entries.
ghost use Rattle.std.specs.Prelude.{◌≡◌, ℕ, ◌<◌, true, [], length, is_some, None, Some, MatchResult, ◌==◌, position};
ghost use Rattle.entries.specs.Entries.{entry_for, Found, Limited, Put, Lost};
ghost use Rattle.entries.specs.Answers.{put_answer, remove_answer};

use crate::entry::{Entry, Places};
use crate::held::Held;
use crate::refusals::Refusal;
use crate::slowdown::Figure;
pub use crate::slowdown::LONGEST;
use map::numbers::RoadId;
use std::marker::{Model, PhantomData};

/// How many entries a table has room for.
pub const ROOM: usize = 64;

/// Up to 64 entries, no two of them for one road. The first `len` of its places are in use.
///
/// The length stands beside the places since there is no heap. Contracts see the entries in use, and the spare places too:
/// so a table that is said to be unchanged is so in all of its places.
#[derive(Drop)]
pub struct Entries<E: Entry, A: Places<E>> {
    places: A,
    pub(crate) len: usize,
    of: PhantomData<E>,
}

/// Up to 64 different roads.
pub type ClosedRoads = Held<RoadId, [RoadId; ROOM]>;

/// Up to 64 different roads with a figure of at most 60,000 seconds each.
pub type SlowedRoads = Held<Figure, [Figure; ROOM]>;

impl<E: Entry, A: Places<E>> Model for Entries<E, A> {
    ghost use Rattle.entries.specs.Entries.{Kept, kept, Tidy};

    ghost Value = { Kept E };

    ghost view = { λ t. kept t.len (A.Places.items t.places) };

    ghost invariant = { λ t. Tidy E.Entry.road t.len (A.Places.items t.places) };
}

impl<E: Entry, A: Places<E>> Entries<E, A> {
    /// No entries.
    pub fn new() -> Self
        ensures none { result.used ≡ [] }
        ensures limits { Limited E.Entry.road result }
    {
        Entries {
            places: A::blank(),
            len: 0,
            of: PhantomData,
        }
    }

    /// Whether the table has no entry.
    #[tactic(auto, unfolding(crate::specs::Entries::entry_for))]
    pub fn is_empty(&self) -> bool
        ensures count { result ≡ (length self.now.used == 0) }
        ensures none { result ≡ true → (q : ℕ) → entry_for E.Entry.road self.now.used q ≡ None }
        ensures limits { Limited E.Entry.road self.now }
    {
        self.len == 0
    }

    /// The entry of a road.
    #[tactic(auto, unfolding(crate::specs::Entries::entry_for))]
    pub fn get(&self, road: RoadId) -> Option<E>
        ensures entry { result ≡ entry_for E.Entry.road self.now.used road.0 }
        ensures limits { Limited E.Entry.road self.now }
    {
        self.used().iter().copied().find(|x| x.road() == road)
    }

    /// Enters a road, or, if it has an entry, does as such entries do.
    pub fn put(&mut self, entry: E) -> Result<(), Refusal>
        ensures answer { result ≡ put_answer E.Entry.again (is_some (entry_for E.Entry.road self.old.used (E.Entry.road entry))) (length self.old.used) }
        ensures after { MatchResult result (λ _. Put E.Entry.road self.old.used self.new.used entry) (λ _. self.new ≡ self.old) }
        ensures limits { Limited E.Entry.road self.new }
    {
        if let Some(i) = self.position(entry.road()) {
            return self.renew(i, entry);
        }
        if self.len >= ROOM {
            return Err(Refusal::Full);
        }
        self.push(entry);
        Ok(())
    }

    /// Takes a road off the table.
    pub fn remove(&mut self, road: RoadId) -> Result<(), Refusal>
        ensures answer { result ≡ remove_answer (is_some (entry_for E.Entry.road self.old.used road.0)) }
        ensures after { MatchResult result (λ _. Lost E.Entry.road self.old.used self.new.used road.0) (λ _. self.new ≡ self.old) }
        ensures limits { Limited E.Entry.road self.new }
    {
        let i = self.position(road).ok_or(Refusal::NoEntry)?;
        self.free(i);
        Ok(())
    }

    /// The entries in use.
    fn used(&self) -> &[E]
        ensures entries { result.now ≡ self.now.used }
        ensures limits { Limited E.Entry.road self.now }
    {
        &self.places.as_slice()[..self.len]
    }

    /// Where the entry of a road stands.
    fn position(&self, road: RoadId) -> Option<usize>
        ensures found { Found E.Entry.road self.now.used road.0 result }
        ensures own { is_some result ≡ is_some (entry_for E.Entry.road self.now.used road.0) }
        ensures limits { Limited E.Entry.road self.now }
    {
        first_for(self.used(), road)
    }

    /// Enters a road behind the last entry.
    fn push(&mut self, entry: E)
        requires fresh { entry_for E.Entry.road self.old.used (E.Entry.road entry) ≡ None }
        requires room { length self.old.used < 64 }
        ensures put { Put E.Entry.road self.old.used self.new.used entry }
        ensures limits { Limited E.Entry.road self.new }
    {
        self.places.place(self.len, entry);
        self.len += 1;
    }

    /// Puts an entry in the place of the one that its road has, if such an entry lets it.
    fn renew(&mut self, i: usize, entry: E) -> Result<(), Refusal>
        requires { Found E.Entry.road self.old.used (E.Entry.road entry) (Some i) }
        ensures answer { result ≡ E.Entry.again }
        ensures after { MatchResult result (λ _. Put E.Entry.road self.old.used self.new.used entry) (λ _. self.new ≡ self.old) }
        ensures limits { Limited E.Entry.road self.new }
    {
        self.places.checked_renew(i, entry)
    }

    /// Frees an entry: the last one moves into it.
    fn free(&mut self, i: usize)
        requires { i < length self.old.used }
        ensures lost { (r : ℕ) → Found E.Entry.road self.old.used r (Some i) → Lost E.Entry.road self.old.used self.new.used r }
        ensures limits { Limited E.Entry.road self.new }
    {
        self.len -= 1;
        let last = self.places.as_slice()[self.len];
        self.places.place(i, last);
    }
}

/// Where the first entry for a road stands.
fn first_for<E: Entry>(entries: &[E], road: RoadId) -> Option<usize>
    ensures { result ≡ position (λ x. E.Entry.road x == road.0) entries.now }
{
    entries.iter().position(|x| x.road() == road)
}
