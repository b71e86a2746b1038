//! The route that a search found, read from the labels that it left.
#![tactic(auto)]

mod lists;
mod tracks;

pub use lists::write_route;
