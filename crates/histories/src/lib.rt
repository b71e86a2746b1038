//! What a unit's history makes of it: the calls on a unit, and why one is refused.
#![tactic(auto)]

pub mod calls;
pub mod refusals;

pub use calls::Call;
pub use refusals::Refusal;
