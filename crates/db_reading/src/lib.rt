//! The reading of a database: what the files of a store read as, or the first trouble.
#![tactic(auto)]

mod manifest;
mod reading;
mod row;
#[cfg(test)]
mod tests;

pub use reading::{Reading, read_database};
