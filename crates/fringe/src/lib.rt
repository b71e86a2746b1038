//! Places, orders and fringes. Nothing here knows a map.
#![tactic(auto)]

pub mod drains;
pub mod entries;
pub mod fringes;
pub mod order;
pub mod pairs;
pub mod place;

pub use drains::drain;
pub use entries::precedes;
pub use fringes::{Fringe, Refusal};
pub use order::Order;
pub use pairs::Pair;
pub use place::Place;

/// A fringe over lent memory takes at most this many places.
pub const MOST_PLACES: usize = 1024;
