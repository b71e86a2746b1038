//! What a search has found so far, beside the labels of its sides.
use fringe::place::Place;

/// The gate costs of the side whose turn it is and of the other, once they are known; the least cost of a way that both
/// sides know and the place where they met; the upper bound of what the least route costs; and how many places were
/// expanded and pruned.
#[derive(Clone, Copy, PartialEq, Eq, Debug)]
pub struct Findings<M> {
    pub own_gate: Option<M>,
    pub other_gate: Option<M>,
    pub best: M,
    pub upper: M,
    pub meet: Place,
    pub expanded: usize,
    pub pruned: usize,
}

/// What the district table says between a settled place and the other side's start: the cost of the entry, and the pair
/// of places that has it, that on the settling side first, where it may be used.
#[derive(Clone, Copy, PartialEq, Eq, Debug)]
pub struct Between<M> {
    pub cost: M,
    pub pair: Option<(Place, Place)>,
}
