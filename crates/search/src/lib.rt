//! The search for a least-cost route, from both ends at once, over any measure, map and fringes.
#![tactic(auto)]

mod guides;
mod reading;
mod running;
mod searching;
mod turning;

pub use guides::Question;
pub use searching::search;
