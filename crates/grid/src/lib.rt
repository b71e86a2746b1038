//! A grid of pillars as a map: its roads, tiles and lists are computed from five figures.
#![tactic(auto)]

mod grids;
mod making;
mod reader;
mod refusals;
mod sides;
mod spots;
mod tiles;

pub use grids::Grid;
pub use refusals::Refusal;

#[cfg(test)]
mod tests;
