//! Pairs of numbers, compared by their first numbers first.
ghost use Rattle.std.specs.Prelude.{◌≡◌};
ghost use Rattle.fringe.specs.Pairs.{Rank, rank_leq, rank_of};
ghost use Rattle.std.proofs.Common.{rules};

use crate::order::Order;

/// A pair of numbers. Pairs are compared by their first numbers, and those with one first number by their second.
///
/// Where the first number is 65,535 the second counts for nothing: all those pairs stand for one thing.
#[derive(Clone, Copy, PartialEq, Eq, Debug)]
pub struct Pair {
    pub first: u16,
    pub second: u32,
}

// Not a derived order: it would tell apart pairs that stand for one thing.
impl Order for Pair {
    ghost Thing = { Rank };

    ghost thing = { rank_of };

    ghost leq = { rank_leq };

    ghost ordered = { Prim.search rules };

    fn less(&self, other: &Pair) -> bool {
        if self.first == other.first {
            self.first != u16::MAX && self.second < other.second
        } else {
            self.first < other.first
        }
    }
}
