//! What questions about the surface of a stored tile are answered, as texts: heights, profiles, and sight over the
//! tile.
#![tactic(auto)]

mod asking;
mod height;
pub mod laws;
mod place;
mod profile;
mod question;
mod refused;
mod reply;
mod sight;
mod view;
mod words;

pub use asking::answer;
pub use place::tile_at;
pub use question::Question;
pub use reply::Answer;

#[cfg(test)]
mod tests;
