//! The law that the terrain of each tile is read as a mesh in metres. The crate has a law alone.
#![tactic(auto)]

pub mod laws;
