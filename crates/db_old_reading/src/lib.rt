//! The reading of a database of an older version: what the files of a store read as by it, or the first trouble.
#![tactic(auto)]

pub mod laws;
mod manifest;
mod reading;
mod row;

pub use reading::{OldReading, read_old};
pub use row::{is_staged, kept_name, row_of};
