//! A unit: one vehicle's map, with its closures, its slowdowns and its district table.
#![tactic(auto)]

pub mod questions;
pub mod rows;
pub mod units;

pub use units::Unit;
