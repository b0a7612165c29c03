//! Which tiles exist, and the text that tells it to a viewer: layer.json of TileJSON 2.1.0.
#![tactic(auto)]

mod cells;
mod count;
mod crossing;
pub mod laws;
mod layer;
mod merge;
mod row_run;
#[cfg(test)]
mod tests;

pub use cells::exists;
pub use count::tile_count;
pub use layer::layer_text;
pub use row_run::{RowRun, runs};
