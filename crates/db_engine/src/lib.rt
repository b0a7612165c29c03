//! The calls on a database in a store: it is begun, settled, changed by a cell, made anew, and asked for the files of a
//! tile.
#![tactic(auto)]

mod commands;
mod opened;
mod rows;
mod settling;
mod starting;
#[cfg(test)]
mod stop_tests;
mod stored;
#[cfg(test)]
mod tests;
#[cfg(test)]
mod watched_tests;

pub use commands::{add, remove, replace};
pub use opened::Opened;
pub use settling::settle;
pub use starting::{init, rebuild};
pub use stored::stored_tile;
