//! Sides, planes and heights of triangles in exact whole numbers, and the laws by which triangles cover a
//! region once.
#![tactic(auto)]

mod corner;
mod gap;
pub mod laws;

pub use corner::{Corner, Tri, doubled, side, within};
pub use gap::{Gap, ceil_gap, height_gap, plane_height};

#[cfg(test)]
mod tests;
