//! A tile of a database, in the form heightmap-1.0.
#![tactic(auto)]

mod heightmap;
pub mod laws;
#[cfg(test)]
mod tests;

pub use heightmap::heightmap_tile;
