//! What depends on what: the tiles that touch a square, the squares that touch a tile, and the tiles that exist, each
//! in order and without a list of all tiles.
#![tactic(auto)]

mod cells_of;
mod existing;
mod index;
pub mod laws;
mod level_run;
mod next_tile;
#[cfg(test)]
mod tests;
mod touched;

pub use cells_of::CellsOf;
pub use existing::ExistingTiles;
pub use index::DepIndex;
pub use touched::TouchedTiles;
