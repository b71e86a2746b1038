//! The bounds that a search prunes by.
ghost use Rattle.std.specs.Prelude.{◌≡◌, ℕ, not, ◌||◌};
ghost use Rattle.routes.specs.Labels.{label_view};
ghost use Rattle.routes.specs.Search.{least_of, through, unsettled, too_dear, gate_after};
ghost use Rattle.turns.specs.Options.{maybe};
ghost use Rattle.routes.specs.Members.{operations};

use fringe::order::Order;
use measure::measures::Measure;
use routes::labels::Label;

/// The lesser of two costs, and the first where they stand for one thing.
pub fn lesser<M: Measure + Copy>(a: M, b: M) -> M
    ensures { result ≡ least_of (operations M.Order M.Measure.own) a b }
{
    if b.less(&a) { b } else { a }
}

/// The upper bound where one side paid `cost` up to the end of a stored pair, whose label on the other side is given: it
/// falls to the sum, if that side settled it and the sum is less.
pub fn upper_through<M: Measure + Copy>(label: Label<M>, cost: M, upper: M) -> M
    ensures { (start_of : ℕ → ℕ) → result ≡ through (operations M.Order M.Measure.own) (label_view start_of label) cost upper }
{
    label
        .final_cost()
        .map_or(upper, |rest| lesser(cost.add(rest), upper))
}

/// Whether the place of a label is not settled.
fn is_unsettled<C: Copy>(label: Label<C>) -> bool
    ensures { (start_of : ℕ → ℕ) → result ≡ unsettled (label_view start_of label) }
{
    label.final_cost().is_none()
}

/// Whether a lower bound is blocked or above the upper bound.
fn exceeds<M: Measure + Copy>(lower: M, upper: M) -> bool
    ensures { result ≡ (M.Order.leq (M.Order.thing M.Measure.top) (M.Order.thing lower) || not (M.Order.leq (M.Order.thing lower) (M.Order.thing upper))) }
{
    let blocked = M::blocked();
    !lower.less(&blocked) || upper.less(&lower)
}

/// Whether a place is pruned: both gate costs are known, the other side, whose label of it is given, did not settle it,
/// and `cost`, up to the place and over the table entry, with the other side's gate cost is blocked or above the upper
/// bound.
pub fn is_too_dear<M: Measure + Copy>(
    own: Option<M>,
    other: Option<M>,
    label: Label<M>,
    cost: M,
    upper: M,
) -> bool
    ensures { (start_of : ℕ → ℕ) → result ≡ too_dear (operations M.Order M.Measure.own) (maybe own) (maybe other) (label_view start_of label) cost upper }
{
    match (own, other) {
        (Some(_), Some(gate)) => is_unsettled(label) && exceeds(cost.add(gate), upper),
        _ => false,
    }
}

/// The gate cost of a side once it settled a place at `cost`: it stays if it is known, and otherwise is that cost if the
/// place is a border place of the side's own district.
pub fn gate_after<C: Copy>(gate: Option<C>, own: bool, cost: C) -> Option<C>
    ensures { maybe result ≡ gate_after (maybe gate) own cost }
{
    gate.or(own.then_some(cost))
}
