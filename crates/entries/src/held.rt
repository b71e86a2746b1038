//! Tables with what holds of them.
ghost use Rattle.std.specs.Prelude.{◌≡◌, ℕ, true, [], length, is_some, None, MatchResult, ◌==◌};
ghost use Rattle.entries.specs.Entries.{entry_for, Limited, Put, Lost};
ghost use Rattle.entries.specs.Answers.{put_answer, remove_answer};
ghost use Rattle.entries.specs.Limits.{limited_prop};

use crate::entry::{Entry, Places};
use crate::refusals::Refusal;
use crate::tables::Entries;
use map::numbers::RoadId;

/// A table of entries, and what holds of every table. Contracts see that by the type, wherever there is such a table.
#[derive(Drop)]
pub struct Held<E: Entry, A: Places<E>> {
    pub entries: Entries<E, A>,
    pub ghost limited: { Limited E.Entry.road entries } by { limited_prop E.Entry.road entries },
}

impl<E: Entry, A: Places<E>> Held<E, A> {
    /// No entries.
    pub fn new() -> Self
        ensures { result.entries.used ≡ [] }
    {
        Held {
            entries: Entries::new(),
        }
    }

    /// Whether the table has no entry.
    pub fn is_empty(&self) -> bool
        ensures count { result ≡ (length self.now.entries.used == 0) }
        ensures none { result ≡ true → (q : ℕ) → entry_for E.Entry.road self.now.entries.used q ≡ None }
    {
        self.entries.is_empty()
    }

    /// The entry of a road.
    pub fn get(&self, road: RoadId) -> Option<E>
        ensures { result ≡ entry_for E.Entry.road self.now.entries.used road.0 }
    {
        self.entries.get(road)
    }

    /// Enters a road, or, if it has an entry, does as such entries do.
    pub fn put(&mut self, entry: E) -> Result<(), Refusal>
        ensures answer { result ≡ put_answer E.Entry.again (is_some (entry_for E.Entry.road self.old.entries.used (E.Entry.road entry))) (length self.old.entries.used) }
        ensures after { MatchResult result (λ _. Put E.Entry.road self.old.entries.used self.new.entries.used entry) (λ _. self.new ≡ self.old) }
    {
        self.entries.put(entry)
    }

    /// Takes a road off the table.
    pub fn remove(&mut self, road: RoadId) -> Result<(), Refusal>
        ensures answer { result ≡ remove_answer (is_some (entry_for E.Entry.road self.old.entries.used road.0)) }
        ensures after { MatchResult result (λ _. Lost E.Entry.road self.old.entries.used self.new.entries.used road.0) (λ _. self.new ≡ self.old) }
    {
        self.entries.remove(road)
    }
}
