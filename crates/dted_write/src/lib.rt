//! DTED cells, written from their posts (MIL-PRF-89020), and cells of a made-up landscape.
#![tactic(auto)]

mod cell;
mod grid;
mod header;
mod landscape;
pub mod laws;
mod mixing;
mod posts;
mod record;
mod table;
#[cfg(test)]
mod tests;

pub use cell::write_cell;
pub use grid::PostGrid;
pub use landscape::generate;
pub use mixing::mix;
pub use table::PostTable;
