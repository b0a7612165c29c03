//! What a run of the program comes to: its status and its course, and the states that the database passes. Definitions
//! and laws; of code it has the statuses alone.
#![tactic(auto)]

pub mod laws;
mod status;
mod stop;

pub use status::Status;
pub use stop::Stop;
