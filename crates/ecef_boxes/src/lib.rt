//! Boxes in Earth-fixed coordinates that enclose points near the WGS 84 ellipsoid, in whole numbers.
#![tactic(auto)]

mod ecef_box;
mod ellipsoid;
mod frame;
pub mod laws;
mod line;

pub use ecef_box::EcefBox;
pub use frame::frame_box;
pub use line::{Meridian, Parallel, box_at};

#[cfg(test)]
mod tests;
