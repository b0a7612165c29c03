//! Heights from the cells of any source: at a place, and at the grid points of a tile.
#![tactic(auto)]

mod at_hand;
mod block;
mod grid_lines;
mod height_rule;
mod inside;
pub mod laws;
mod line;
#[cfg(test)]
mod tests;
mod tile;

pub use height_rule::height;
pub use tile::tile_grid;
