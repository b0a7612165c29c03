//! The files of a database as a command changes them, once its mark is in the store: the cell, the tiles that touch it,
//! layer, manifest and stage; and the rebuilding of all tiles.
#![tactic(auto)]

mod closing;
mod manifest;
mod rebuilding;
mod rows;
#[cfg(test)]
mod tests;
mod tiles;

pub use closing::{close, put_cell, put_last};
pub use manifest::manifest_bytes;
pub use rebuilding::{refill, restart};
pub use rows::{has_row, row_key};
pub use tiles::{put_tile, put_tiles};
