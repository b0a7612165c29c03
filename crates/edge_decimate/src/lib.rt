//! Which of the 67 heights along an edge of a tile are kept: a function of the edge and the tolerance alone.
#![tactic(auto)]

mod halving;
mod kept_line;
pub mod laws;
mod straight;

pub use kept_line::{KeptLine, kept};

#[cfg(test)]
mod tests;
