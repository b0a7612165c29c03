//! The greatest gap between a triangle's plane and the posts of a window that the triangle holds.
#![tactic(auto)]

mod axis;
mod plane;
mod rows;
mod triangle;
mod window;

pub use axis::Axis;
pub use plane::{area, gap, lift_within};
pub use triangle::raise;
pub use window::{Window, sweep};
