//! A map read from the bytes of a cartridge. What the bytes mean is defined in the crate `format`.
#![tactic(auto)]

mod cartridges;
mod fields;
mod judge;
mod listings;
mod orders;
mod reader;

pub use cartridges::Cartridge;
