//! The call that does all that the program does: words come in, a status and a report go out.
#![tactic(auto)]

mod answer;
mod audit;
mod cell;
mod change;
mod check;
mod convert;
mod database_command;
mod edit;
mod engine_answer;
mod file;
mod migrate;
mod print;
mod query;
mod script;
mod status;
mod top;
mod trial;

pub use top::run;
pub use top_reply::Status;
