//! The cells beside each other: which squares hold a place, the value at a place in a square's cells, and where the
//! posts come from.
#![tactic(auto)]

mod blending;
mod candidate;
mod fault;
pub mod laws;
mod quad;
mod short_blend;
mod source;
mod squares;
#[cfg(test)]
mod tests;
mod value;
mod weighted;
mod whole;

pub use blending::blend;
pub use candidate::candidates;
pub use fault::SourceFault;
pub use quad::{Quad, quad_of};
pub use source::PostSource;
pub use squares::SquareList;
pub use value::{cell_value, coarser_value};
pub use whole::{NoRoom, WholeCells, post_of};
