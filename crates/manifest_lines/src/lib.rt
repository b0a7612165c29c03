//! The lines of a database's manifest, for each version of it: one grammar, whose rows a trait gives.
#![tactic(auto)]

mod head;
mod key_row;
pub mod laws;
mod line;
mod number;
mod read;
mod refusal;
mod row;
mod rows;
mod state;
#[cfg(test)]
mod tests;
mod version;

pub use read::{Parts, read_parts};
pub use refusal::ManifestRefusal;
pub use row::Row;
pub use state::State;
pub use version::{Version, manifest_version};
