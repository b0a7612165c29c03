//! Generated commands over a database in memory: a large valid input, made from a number.
#![tactic(auto)]

mod commands;
mod generated;
mod scratch;
#[cfg(test)]
mod tests;
mod total;
mod trial;

pub use trial::run_trial;
