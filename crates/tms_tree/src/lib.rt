//! The tree of tiles (TMS, global-geodetic profile): the places of its grid points, and which tiles touch a square.
#![tactic(auto)]

mod grid_point;
pub mod laws;
mod neighbour;
mod place;
mod touch;
mod touched;

pub use grid_point::tile_place;
pub use neighbour::{neighbour_east, neighbour_north};
pub use place::Place;
pub use touch::{overlaps, touches};
pub use touched::{Run, TouchedRows, touched_row};
