//! Mine maps: their numbers, their roads, and what it is to be a map.
#![tactic(auto)]

pub mod departures;
pub mod directions;
pub mod maps;
pub mod numbers;
pub mod roads;

pub use departures::Departures;
pub use directions::Direction;
pub use maps::Map;
pub use numbers::{District, RoadId};
pub use roads::{Mark, Road};
