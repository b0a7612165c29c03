//! The manifest of a database: its params, what is under way and the keys of its cells, in one spelling.
#![tactic(auto)]

pub mod laws;
mod manifest;
mod read;
#[cfg(test)]
mod tests;
mod write;

pub use manifest::{Manifest, ManifestState};
pub use manifest_lines::{ManifestRefusal, manifest_version};
