//! The district table for one measure.
#![tactic(auto)]

mod entry;
mod tables;

pub use entry::Entry;
pub use tables::Table;
