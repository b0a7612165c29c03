//! Spheres round boxes in Earth-fixed coordinates, and their horizon points.
#![tactic(auto)]

mod distance;
mod extent;
mod hiding;
mod horizon_point;
pub mod laws;
mod scaled;
mod sphere;

pub use hiding::horizon;
pub use horizon_point::far_point;
pub use scaled::{Vector, centre_of};
pub use sphere::{Sphere, sphere_of};

#[cfg(test)]
mod tests;
