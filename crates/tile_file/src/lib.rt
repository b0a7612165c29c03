//! The two files of a tile, made from any source of posts.
#![tactic(auto)]

mod bound;
mod mesh;
mod note;
#[cfg(test)]
mod tests;
mod tile_files;

pub use tile_files::{TileFiles, make_tile};
