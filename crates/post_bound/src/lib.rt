//! The error bound of a tile: how far its mesh is from the posts of all cells, and the laws that this number meets.
#![tactic(auto)]

mod axes;
mod degrees;
pub mod laws;
mod posts;
mod span;
mod squares;
#[cfg(test)]
mod tests;
mod triangles;
mod window;

pub use posts::post_bound;
pub use span::{highest, lowest, span_bound};
