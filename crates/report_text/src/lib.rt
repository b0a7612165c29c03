//! The lines of reports on cells and tiles, and the texts of findings and refusals, byte for byte.
#![tactic(auto)]

mod cell;
mod finding;
mod refusal;
mod tile;
mod tile_refusal;
mod words;

pub use cell::cell_line;
pub use finding::finding_text;
pub use refusal::cell_refusal_text;
pub use tile::audit_line;
pub use tile_refusal::tile_refusal_text;
