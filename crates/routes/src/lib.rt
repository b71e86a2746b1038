//! The labels of a search for a least-cost route, and the theory of that search.
#![tactic(auto)]

pub mod labels;
pub mod promise;

pub use labels::{Label, Origin};
