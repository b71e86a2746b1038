//! The turns of a search, over any measure, map and fringe.
#![tactic(auto)]

pub mod advancing;
pub mod bounds;
pub mod findings;

pub use advancing::{advance, upper_after};
pub use bounds::{gate_after, is_too_dear, lesser, upper_through};
pub use findings::{Between, Findings};
