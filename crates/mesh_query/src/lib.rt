//! Heights and profiles of a stored tile of any maker: exact fractions of its surface in metres.
#![tactic(auto)]

mod collect;
mod crossing;
mod ends;
mod field;
mod height;
mod held;
pub mod laws;
mod made;
mod metres;
mod profile;
mod rank;
mod ratio;
mod refusal;
mod spot;

pub use crossing::{Crossing, Place, aside_of, cross_out};
pub use ends::start;
pub use field::MeshField;
pub use height::height_at;
pub use held::holder;
pub use profile::{breaks, place_of};
pub use ratio::{Ratio, reduced};
pub use refusal::QueryRefusal;
pub use spot::{Break, Spot};

#[cfg(test)]
mod tests;
