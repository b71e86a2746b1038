//! Things that can be compared.
ghost use Rattle.std.specs.Prelude.{◌≡◌, Bool, not};
ghost use Rattle.fringe.specs.Orders.{TotalOrder};

/// Stored values that stand for things of a total order. Several values may stand for one thing.
pub trait Order {
    ghost Thing: { Type 0 };

    ghost thing: { Self → Thing };

    ghost leq: { Thing → Thing → Bool };

    /// Whether what `self` stands for is less than what `other` stands for.
    fn less(&self, other: &Self) -> bool
        ensures { result ≡ not (leq (thing other.now) (thing self.now)) };

    ghost ordered: { TotalOrder leq };
}
