//! The texts of replies on a database: lines of reports, and refusals from their numbers on, byte for byte.
#![tactic(auto)]

mod check;
mod done;
mod listing;
mod refusal;
#[cfg(test)]
mod tests;
mod tile;
mod trial;
mod words;

pub use check::check_line;
pub use done::{
    Edited, created_line, edited_line, migrated_line, rebuilt_line, script_line, script_mark,
};
pub use listing::{deps_text, list_text};
pub use refusal::{NO_COMMAND, refusal_text};
pub use tile::tile_line;
pub use trial::{TrialReport, trial_line};
