//! The words of the command line and the lines of scripts, and the commands that they spell.
#![tactic(auto)]

mod command;
mod number;
mod question;
mod read;
mod script;
#[cfg(test)]
mod tests;

pub use command::{Command, DatabaseCommand, Edit, Query};
pub use read::command_in;
pub use script::{Line, script_lines};
