//! The manifests of versions 1 and 2, which are read to bring a database to the present version.
#![tactic(auto)]

mod manifest;
mod row;
#[cfg(test)]
mod tests;

pub use manifest::{OldManifest, grammar_of};
pub use row::OldRow;
