//! What a table keeps of one road, and where.
ghost use Rattle.std.specs.Prelude.{◌≡◌, ℕ, ◌<◌, ◌≤◌, List, length, Err, Result, MatchResult, slice_set, slice_index_or};
ghost use Rattle.entries.specs.declared.refusals.Refusal.{Refusal};
ghost use Rattle.entries.specs.declared.refusals.Refusal.TheVariants.{NoEntry};

use crate::refusals::Refusal;
use crate::tables::ROOM;
use map::numbers::RoadId;

/// An entry of a table, for one road.
///
/// `road` is the number of its road, and `again` what entering a road answers that has an entry already.
pub trait Entry: Copy {
    ghost road: { Self → ℕ };

    ghost again: { Result Unit Refusal };

    /// What fills the places of a table that are not in use.
    fn blank() -> Self;

    /// The road that the entry is for.
    fn road(&self) -> RoadId
        ensures { result.0 ≡ road self.now };

    /// Takes the place of another entry for the same road, or refuses to.
    fn renew(&mut self, other: Self) -> Result<(), Refusal>
        ensures answer { result ≡ again }
        ensures after { road self.old ≡ road other → MatchResult result (λ _. self.new ≡ other) (λ _. self.new ≡ self.old) };
}

/// The places of a table: an array of 64 entries. Code over it takes it as a type of its own, since code over an array
/// of any entries would ask its callers that such an array fits into memory.
pub trait Places<E: Entry>: Copy {
    ghost items: { Self → List E };

    /// Places that are not in use.
    fn blank() -> Self
        ensures { length (items result) ≡ 64 };

    /// The entries in all places.
    fn as_slice(&self) -> &[E]
        ensures { result.now ≡ items self.now };

    /// Puts an entry into a place, if there is that place.
    fn place(&mut self, i: usize, entry: E)
        ensures { items self.new ≡ slice_set (items self.old) i entry };

    /// Has the entry in a place renewed by another for the same road, if there is that place.
    fn renew(&mut self, i: usize, entry: E) -> Result<(), Refusal>
        ensures answer { i < length (items self.old) → result ≡ E.Entry.again }
        ensures after { (d : E) → i < length (items self.old) → E.Entry.road (slice_index_or (items self.old) i d) ≡ E.Entry.road entry → MatchResult result (λ _. items self.new ≡ slice_set (items self.old) i entry) (λ _. items self.new ≡ items self.old) };

    /// The same, of which more is known: where there is not that place, there is no entry, and nothing changes.
    final fn checked_renew(&mut self, i: usize, entry: E) -> Result<(), Refusal>
        ensures answer { i < length (items self.old) → result ≡ E.Entry.again }
        ensures after { (d : E) → i < length (items self.old) → E.Entry.road (slice_index_or (items self.old) i d) ≡ E.Entry.road entry → MatchResult result (λ _. items self.new ≡ slice_set (items self.old) i entry) (λ _. items self.new ≡ items self.old) }
        ensures nowhere { length (items self.old) ≤ i → (result ≡ Err NoEntry) × (items self.new ≡ items self.old) }
    {
        self.as_slice().get(i).ok_or(Refusal::NoEntry)?;
        self.renew(i, entry)
    }
}

impl<E: Entry> Places<E> for [E; ROOM] {
    ghost items = { λ places. places };

    fn blank() -> Self {
        [E::blank(); ROOM]
    }

    fn as_slice(&self) -> &[E] {
        &self[..]
    }

    fn place(&mut self, i: usize, entry: E) {
        if i < ROOM {
            self[i] = entry;
        }
    }

    fn renew(&mut self, i: usize, entry: E) -> Result<(), Refusal>
        ensures answer { i < length self.old → result ≡ E.Entry.again }
        ensures after { (d : E) → i < length self.old → E.Entry.road (slice_index_or self.old i d) ≡ E.Entry.road entry → MatchResult result (λ _. self.new ≡ slice_set self.old i entry) (λ _. self.new ≡ self.old) }
        ensures nowhere { length self.old ≤ i → (result ≡ Err NoEntry) × (self.new ≡ self.old) }
    {
        if i < ROOM {
            self[i].renew(entry)
        } else {
            Err(Refusal::NoEntry)
        }
    }
}
