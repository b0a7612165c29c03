//! Bringing a database of an older version to the present one: its cells are read by that version, those that have
//! another name now are put under it, and the database is made anew.
#![tactic(auto)]

pub mod laws;
mod migration;
mod moving;
#[cfg(test)]
mod stop_tests;
#[cfg(test)]
mod tests;

pub use migration::migrate;
