//! Tiles as heightmaps, the format heightmap-1.0 of Cesium: made from the cells of any source, and read where their
//! bytes lie.
#![tactic(auto)]

pub mod laws;
mod mask;
mod sample;
#[cfg(test)]
mod tests;
mod tile;
mod view;

pub use tile::heightmap;
pub use view::HeightmapView;
