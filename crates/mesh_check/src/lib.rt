//! Whether a mesh covers its tile once, by slabs between the levels of its vertices.
#![tactic(auto)]

mod active;
mod auditing;
pub mod laws;
mod level;
mod member;
mod mesh;
mod order;
mod rank;
mod slab;
mod span;
mod sweep;
mod verdict;
mod walk;

pub use auditing::audit;
pub use verdict::{Finding, Verdict};

#[cfg(test)]
mod tests;
