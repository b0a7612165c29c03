//! Which nodes of the quadtree over a tile's grid are split, so that the leaves follow the heights within a
//! tolerance and fit one another.
#![tactic(auto)]

mod fan;
mod fit;
pub mod laws;
mod node;
mod splits;
mod triangle;

pub use fit::fits;
pub use node::Node;
pub use splits::{Splits, split_map};

#[cfg(test)]
mod tests;
