//! Cells of DTED levels 0 to 2, read where their bytes lie (MIL-PRF-89020).
#![tactic(auto)]

mod bytes;
mod cell;
mod counts;
mod elevation;
mod elevations;
mod facts;
mod field;
mod fields;
mod header;
pub mod laws;
mod lead;
mod profile;
mod reading;
mod record;
mod refusal;
mod tally;
#[cfg(test)]
mod tests;
mod trouble;
mod view;

pub use bytes::{CellBytes, RefusedCell};
pub use facts::{CellFacts, read_facts};
pub use profile::ProfileView;
pub use reading::FactsReading;
pub use refusal::CellRefusal;
pub use trouble::CellTrouble;
pub use view::CellView;
