//! A question answered: the search, the route that it found, and all memory left as it should be.
#![tactic(auto)]

pub mod answers;
mod asking;

pub use answers::{Answer, Found};
pub use asking::ask;
pub use search::Question;
