//! The entries that layers over a map keep: tables of up to 64 roads, and why a layer refuses a call.
#![tactic(auto)]

pub mod closed;
pub mod entry;
pub mod held;
pub mod refusals;
pub mod slowdown;
pub mod slowed;
pub mod tables;

pub use entry::{Entry, Places};
pub use held::Held;
pub use refusals::Refusal;
pub use slowdown::{Figure, Slowdown};
pub use tables::{ClosedRoads, Entries, SlowedRoads};
