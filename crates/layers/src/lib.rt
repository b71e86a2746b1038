//! Two layers over any map, each again a map: roads read as closed, and roads read as slower.
#![tactic(auto)]

pub mod calls;
pub mod closures;
pub mod kinds;
pub mod layer;
pub mod slowdowns;

pub use calls::{ClosureCall, SlowdownCall};
pub use closures::Closures;
pub use entries::refusals::Refusal;
pub use kinds::Kind;
pub use layer::Layer;
pub use slowdowns::Slowdowns;
