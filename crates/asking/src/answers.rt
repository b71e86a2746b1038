//! What is answered to a question.

/// A route by its cost and the number of its places.
#[derive(Clone, Copy, PartialEq, Eq, Debug)]
pub struct Found<M> {
    pub cost: M,
    pub places: usize,
}

/// What is answered to a question: the least cost of a route and how many places the route has that is given, or nothing
/// where there is no way; and how many places were expanded and pruned to find it.
#[derive(Clone, Copy, PartialEq, Eq, Debug)]
pub struct Answer<M> {
    pub found: Option<Found<M>>,
    pub expanded: usize,
    pub pruned: usize,
}
