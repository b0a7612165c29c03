//! Every file that a store holds of a database, compared with a build from scratch.
#![tactic(auto)]

mod checking;
mod extra;
pub mod laws;
mod least;
#[cfg(test)]
mod tests;
mod texts;
mod tiles;
mod verdict;

pub use checking::check;
pub use verdict::CheckVerdict;
