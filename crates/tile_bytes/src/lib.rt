//! The bytes of a mesh's terrain file, and the multiple of its certified horizon.
#![tactic(auto)]

mod coded;
mod coded_mesh;
mod grid_lines;
mod header;
mod horizon;
mod terrain_file;
#[cfg(test)]
mod tests;
mod vertex_boxes;
mod vertex_frame;

pub use terrain_file::{TerrainFile, terrain};
