//! Sight over the mesh of a stored tile, along straight lines in its two coordinates and its metres: whether one point
//! sees another, and which vertices a point sees. The Earth's curvature is not in it.
#![tactic(auto)]

mod blocked;
mod eye;
mod hidden;
pub mod laws;
mod line;
mod seen;

pub use blocked::sight;
pub use eye::{Eye, SightAnswer};
pub use seen::view;

#[cfg(test)]
mod tests;
