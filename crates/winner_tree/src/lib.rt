//! A fringe that is a winner tree: a tournament between the places that it holds.
#![tactic(auto)]

pub mod tree;

pub use tree::{MOST_PLACES, WinnerTree};
