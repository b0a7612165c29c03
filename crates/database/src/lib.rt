//! States of a database, the files that they have, and the changes that commands make of them: definitions and laws. Of
//! code it has the answers of calls on a database alone.
#![tactic(auto)]

mod answer;
pub mod laws;
mod verdict;

pub use answer::EngineAnswer;
pub use verdict::{Difference, Finding};
