//! Cells that are fetched from a store, the last used of which are kept in memory.
#![tactic(auto)]

mod cached;
mod fetch;
mod held;
mod slot;
#[cfg(test)]
mod tests;

pub use cached::CachedCells;
