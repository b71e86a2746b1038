//! The winner tree.
ghost use Rattle.std.specs.Prelude.{◌≡◌, ◌*◌, ◌/◌, ◌<◌, ◌≤◌, length, None, slice_index_or, slice_set};
ghost use Rattle.std.proofs.lemmas.List.{get_or_past};
ghost use Rattle.fringe.specs.Fringes.{Empty, Emptied, lowered};
ghost use Rattle.winner_tree.specs.Tournaments.{capacity_of, meaning_of, out_of, champion_of, winner_of, match_at, cheaper, InOrder, InOrderBut};

pub use fringe::MOST_PLACES;
use fringe::{Fringe, Order, Place, Refusal, precedes};

/// A fringe over two lent slices, in which the places that are held play a tournament for being the least.
///
/// A place enters at its leaf. Each inner node of the tree is a match between those who come out of the two nodes below
/// it, and keeps the winner with its cost. So the least comes out of the root, and after a change at a leaf only the
/// matches on the way up from it are played again: one for each level of the tree.
#[derive(Drop)]
pub struct WinnerTree<'a, C> {
    // Two rows, for one is counted by places and the other by inner nodes.
    /// The cost that each place holds.
    costs: &'a mut [Option<C>],
    /// The winner of the match at each inner node, with its cost. Inner nodes are counted from 1: cell 0 stays empty.
    winners: &'a mut [Option<(Place, C)>],
    ghost even: { length winners.now ≡ length costs.now },
    ghost few: { length costs.now ≤ 1024 },
}

impl<'a, C: Order + Copy> WinnerTree<'a, C> {
    /// An empty winner tree. The slices may hold anything; the places below both their lengths fit, up to `MOST_PLACES`.
    pub fn new(costs: &'a mut [Option<C>], winners: &'a mut [Option<(Place, C)>]) -> Self
        ensures capacity { (meaning_of result.costs.now).capacity ≡ capacity_of (length costs.old) (length winners.old) }
        ensures empty { Empty (meaning_of result.costs.now) }
        ensures well { InOrder C.Order.thing C.Order.leq result.costs.now result.winners.now }
    {
        let capacity = costs.len().min(winners.len()).min(MOST_PLACES);
        let mut tree = WinnerTree {
            costs: &mut costs[..capacity],
            winners: &mut winners[..capacity],
        };
        tree.wipe();
        tree
    }

    /// Empties every place, and with it every match.
    fn wipe(&mut self)
        ensures emptied { Emptied (meaning_of self.old.costs.now) (meaning_of self.new.costs.now) }
        ensures order { InOrder C.Order.thing C.Order.leq self.new.costs.now self.new.winners.now }
    {
        self.costs.fill(None);
        self.winners.fill(None);
    }

    /// Who comes out of a node. The leaves follow the inner nodes, in the order of their places.
    fn contestant(&self, node: usize) -> Option<(Place, C)>
        requires { node < 2 * length self.now.costs.now }
        ensures { result ≡ out_of self.now.costs.now self.now.winners.now node }
    {
        let inner = self.costs.len();
        if node < inner {
            return self.winners[node];
        }
        let p = node - inner;
        self.costs[p].map(|cost| (Place(p as u16), cost))
    }

    /// Who wins the tournament.
    fn champion(&self) -> Option<(Place, C)>
        ensures { result ≡ champion_of self.now.costs.now self.now.winners.now }
    {
        if self.costs.is_empty() {
            return None;
        }
        self.contestant(1)
    }

    /// Plays the match at an inner node.
    fn play(&mut self, node: usize)
        requires { node < length self.old.costs.now }
        ensures costs { self.new.costs.now ≡ self.old.costs.now }
        ensures winners { self.new.winners.now ≡ slice_set self.old.winners.now node (match_at C.Order.thing C.Order.leq self.old.costs.now self.old.winners.now node) }
    {
        self.winners[node] = better(self.contestant(2 * node), self.contestant(2 * node + 1));
    }

    /// Plays the matches above a node again, the lowest first.
    fn replay(&mut self, start: usize)
        requires { start < 2 * length self.old.costs.now }
        ensures costs { self.new.costs.now ≡ self.old.costs.now }
        ensures order { InOrderBut C.Order.thing C.Order.leq (start / 2) self.old.costs.now self.old.winners.now → InOrder C.Order.thing C.Order.leq self.new.costs.now self.new.winners.now }
    {
        let mut node = start;
        while node > 1 {
            node /= 2;
            self.play(node);
        }
    }

    /// Writes what a place holds, and plays the matches above its leaf again.
    fn write(&mut self, p: usize, cost: Option<C>)
        requires { p < length self.old.costs.now }
        ensures costs { self.new.costs.now ≡ slice_set self.old.costs.now p cost }
        ensures order { InOrder C.Order.thing C.Order.leq self.old.costs.now self.old.winners.now → InOrder C.Order.thing C.Order.leq self.new.costs.now self.new.winners.now }
    {
        self.costs[p] = cost;
        self.replay(self.costs.len() + p);
    }

    /// Writes a cost for a place, unless what it holds is at most that.
    fn lower(&mut self, p: usize, cost: C)
        requires { p < length self.old.costs.now }
        ensures costs { self.new.costs.now ≡ slice_set self.old.costs.now p (lowered C.Order.thing C.Order.leq (slice_index_or self.old.costs.now p None) cost) }
        ensures order { InOrder C.Order.thing C.Order.leq self.old.costs.now self.old.winners.now → InOrder C.Order.thing C.Order.leq self.new.costs.now self.new.winners.now }
    {
        if lowers(cost, self.costs[p]) {
            self.write(p, Some(cost));
        }
    }
}

impl<'a, C: Order + Copy> Fringe<C> for WinnerTree<'a, C> {
    ghost meaning = { λ s. meaning_of s.costs.now };

    ghost well = { λ s. InOrder C.Order.thing C.Order.leq s.costs.now s.winners.now };

    ghost bounded = { λ s _ q. get_or_past s.costs.now q None };

    fn capacity(&self) -> usize {
        self.costs.len()
    }

    fn clear(&mut self) {
        self.wipe();
    }

    fn put(&mut self, place: Place, cost: C) -> Result<(), Refusal> {
        let p = usize::from(place);
        if p >= self.costs.len() {
            return Err(Refusal::NoRoom);
        }
        self.lower(p, cost);
        Ok(())
    }

    fn least(&self) -> Option<(Place, C)> {
        self.champion()
    }

    fn take(&mut self) -> Option<(Place, C)> {
        let first = self.least()?;
        let p = usize::from(first.0);
        // In a tree that is out of order the winner may be a place that does not fit.
        if p < self.costs.len() {
            self.write(p, None);
        }
        Some(first)
    }
}

/// The winner of a match, for which either side may be missing.
fn better<C: Order + Copy>(a: Option<(Place, C)>, b: Option<(Place, C)>) -> Option<(Place, C)>
    ensures { result ≡ winner_of C.Order.thing C.Order.leq a b }
{
    match (a, b) {
        (Some(x), Some(y)) => { if precedes(&y, &x) { b } else { a } }
        (Some(_), None) => a,
        (None, _) => b,
    }
}

/// Whether a cost is less than what is held, if anything is.
fn lowers<C: Order + Copy>(cost: C, held: Option<C>) -> bool
    ensures { result ≡ cheaper C.Order.thing C.Order.leq cost held }
{
    held.is_none_or(|old| cost.less(&old))
}
