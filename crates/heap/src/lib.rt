//! An indexed binary heap: a fringe over lent memory.
//!
//! The first `len` entries count, and none of them comes before its parent: so the first is the least. Each place has a
//! position, where its entry stands. A position is believed only if the entry that stands there counts and is the
//! place's own: so the memory may hold anything before, and emptying the heap touches none of it.
#![tactic(auto)]

ghost use Rattle.std.specs.Prelude.{◌≡◌, ◌<◌, ◌≤◌, min, not, length, Some, None, Ok};
ghost use Rattle.fringe.specs.Entries.{ahead};
ghost use Rattle.fringe.specs.Fringes.{Empty, Put, First, Taken};
ghost use Rattle.heap.specs.Heaps.{InOrder, entry_at, meaning_of, place_of};
ghost use Rattle.heap.specs.Indexes.{Indexed, Found, Noted};
ghost use Rattle.heap.specs.Bounds.{bounded_of};
ghost use Rattle.heap.specs.Sifts.{FirstChild, Swapped, Reordered, UpTo, DownFrom};

use fringe::{Fringe, MOST_PLACES, Order, Place, Refusal, precedes};

#[cfg(test)]
mod tests;

/// Places with their costs, in lent memory. The least is found at once; putting and taking are logarithmic.
#[derive(Drop)]
pub struct Heap<'a, C> {
    rows: Rows<'a, C>,
    // Both rows are of one length, the capacity, and each entry that counts stands at the position of its place.
    ghost indexed: { Indexed rows },
}

impl<'a, C: Order + Copy> Heap<'a, C> {
    /// An empty heap in this memory, which may hold anything before. It takes as many places as both slices have
    /// elements, and at most 1,024.
    pub fn new(entries: &'a mut [(Place, C)], positions: &'a mut [u16]) -> Self
        ensures capacity { (meaning_of result.rows).capacity ≡ min (min (length entries.old) (length positions.old)) 1024 }
        ensures empty { Empty (meaning_of result.rows) }
        ensures well { InOrder C.Order.thing C.Order.leq result.rows }
    {
        let capacity = entries.len().min(positions.len()).min(MOST_PLACES);
        Heap {
            rows: Rows {
                entries: &mut entries[..capacity],
                positions: &mut positions[..capacity],
                len: 0,
            },
        }
    }

    /// The position of the place's entry, if the place is held.
    fn find(&self, place: Place) -> Option<usize>
        requires { place.0 < length self.now.rows.positions.now }
        ensures { Found self.now.rows place.0 result }
    {
        let entries = &*self.rows.entries;
        let position = usize::from(self.rows.positions[usize::from(place)]);
        (position < self.rows.len && entries[position].0 == place).then_some(position)
    }

    /// Enters a place that is not held, behind the others, and sifts it up.
    fn insert(&mut self, place: Place, cost: C)
        requires fits { place.0 < length self.old.rows.positions.now }
        requires absent { Found self.old.rows place.0 None }
        ensures put { Put C.Order.thing C.Order.leq (meaning_of self.old.rows) (meaning_of self.new.rows) place.0 cost (Ok tt) }
        ensures ordered { InOrder C.Order.thing C.Order.leq self.old.rows → InOrder C.Order.thing C.Order.leq self.new.rows }
    {
        let last = self.rows.len;
        self.rows.entries[last] = (place, cost);
        self.rows.positions[usize::from(place)] = last as u16;
        self.rows.len = last + 1;
        self.sift_up(last);
    }

    /// Lowers the cost of the place, whose entry stands at `position`, where the new cost is less.
    fn lower(&mut self, position: usize, place: Place, cost: C)
        requires { Found self.old.rows place.0 (Some position) }
        ensures put { Put C.Order.thing C.Order.leq (meaning_of self.old.rows) (meaning_of self.new.rows) place.0 cost (Ok tt) }
        ensures ordered { InOrder C.Order.thing C.Order.leq self.old.rows → InOrder C.Order.thing C.Order.leq self.new.rows }
    {
        let old = self.rows.entries[position];
        if cost.less(&old.1) {
            self.rows.entries[position] = (place, cost);
            self.sift_up(position);
        }
    }

    /// The first entry, which is the least.
    fn first(&self) -> (Place, C)
        requires { 0 < self.now.rows.len }
        ensures { InOrder C.Order.thing C.Order.leq self.now.rows → First C.Order.thing C.Order.leq (meaning_of self.now.rows) (place_of result) result.1 }
    {
        self.rows.entries[0]
    }

    /// Removes the first entry: the last one takes its position and is sifted down.
    fn remove_first(&mut self) -> (Place, C)
        requires { 0 < self.old.rows.len }
        ensures taken { InOrder C.Order.thing C.Order.leq self.old.rows → Taken C.Order.thing C.Order.leq (meaning_of self.old.rows) (meaning_of self.new.rows) (Some result) }
        ensures ordered { InOrder C.Order.thing C.Order.leq self.old.rows → InOrder C.Order.thing C.Order.leq self.new.rows }
    {
        let first = self.rows.entries[0];
        let last = self.rows.len - 1;
        self.rows.swap(0, last);
        self.rows.len = last;
        self.sift_down();
        first
    }

    /// Exchanges the entry at `start` with its parent, and on, until the parent does not come after it.
    fn sift_up(&mut self, start: usize)
        requires { start < self.old.rows.len }
        ensures reordered { Reordered self.old.rows self.new.rows }
        ensures ordered { UpTo C.Order.thing C.Order.leq self.old.rows start → InOrder C.Order.thing C.Order.leq self.new.rows }
    {
        let mut child = start;
        while child > 0 {
            let parent = (child - 1) / 2;
            if !self.is_before(child, parent) {
                return;
            }
            self.rows.swap(child, parent);
            child = parent;
        }
    }

    /// Exchanges the first entry with its first child, and on, until no child comes before it.
    fn sift_down(&mut self)
        ensures reordered { Reordered self.old.rows self.new.rows }
        ensures ordered { DownFrom C.Order.thing C.Order.leq self.old.rows 0 → InOrder C.Order.thing C.Order.leq self.new.rows }
    {
        let mut parent = 0;
        while let Some(child) = self.first_child(parent) {
            if !self.is_before(child, parent) {
                return;
            }
            self.rows.swap(child, parent);
            parent = child;
        }
    }

    /// The position of the first child of the entry at `parent`: no other child comes before it.
    fn first_child(&self, parent: usize) -> Option<usize>
        requires { parent ≤ self.now.rows.len }
        ensures { FirstChild C.Order.thing C.Order.leq self.now.rows parent result }
    {
        let left = 2 * parent + 1;
        if left >= self.rows.len {
            return None;
        }
        let right = left + 1;
        if right < self.rows.len && self.is_before(right, left) {
            return Some(right);
        }
        Some(left)
    }

    /// Whether the entry at `i` comes before the one at `j`.
    fn is_before(&self, i: usize, j: usize) -> bool
        requires { (i < self.now.rows.len) × (j < self.now.rows.len) }
        ensures { (d : _) → result ≡ not (ahead C.Order.thing C.Order.leq (entry_at self.now.rows d j) (entry_at self.now.rows d i)) }
    {
        let entries = &*self.rows.entries;
        precedes(&entries[i], &entries[j])
    }
}

impl<'a, C: Order + Copy> Fringe<C> for Heap<'a, C> {
    ghost meaning = { λ s. meaning_of s.rows };

    // No invariant of the type, as the index is: an entry being sifted stands out of order over several calls.
    ghost well = { λ s. InOrder C.Order.thing C.Order.leq s.rows };

    ghost bounded = { λ s _. bounded_of s.rows s.indexed.inside };

    fn capacity(&self) -> usize {
        self.rows.positions.len()
    }

    fn clear(&mut self) {
        self.rows.len = 0;
    }

    fn put(&mut self, place: Place, cost: C) -> Result<(), Refusal> {
        if usize::from(place) >= self.rows.positions.len() {
            return Err(Refusal::NoRoom);
        }
        match self.find(place) {
            Some(position) => self.lower(position, place, cost),
            None => self.insert(place, cost),
        }
        Ok(())
    }

    fn least(&self) -> Option<(Place, C)> {
        if self.rows.len > 0 {
            Some(self.first())
        } else {
            None
        }
    }

    fn take(&mut self) -> Option<(Place, C)> {
        if self.rows.len > 0 {
            Some(self.remove_first())
        } else {
            None
        }
    }
}

/// The memory of a heap, and how many of its entries count. The memory is lent, so it cannot grow and shrink itself.
#[derive(Drop)]
struct Rows<'a, C> {
    entries: &'a mut [(Place, C)],
    positions: &'a mut [u16],
    len: usize,
}

impl<'a, C: Order + Copy> Rows<'a, C> {
    /// Exchanges two entries.
    fn swap(&mut self, i: usize, j: usize)
        requires counts { (i < self.old.len) × (j < self.old.len) }
        requires indexed { Indexed self.old }
        ensures swapped { Swapped self.old self.new i j }
        ensures reordered { Reordered self.old self.new }
        ensures indexed { Indexed self.new }
    {
        self.entries.swap(i, j);
        self.note(i);
        self.note(j);
    }

    /// Notes the position of the entry that stands there.
    fn note(&mut self, position: usize)
        requires few { position < 1024 }
        requires within { position < length self.old.entries.now }
        requires inside { (d : _) → place_of (entry_at self.old d position) < length self.old.positions.now }
        ensures { Noted self.old self.new position }
    {
        let entry = self.entries[position];
        self.positions[usize::from(entry.0)] = position as u16;
    }
}
