//! IEEE 754 bit patterns of whole numbers and of fractions over a power of two, by whole-number arithmetic.
#![tactic(auto)]

mod binary32;
mod binary64;
pub mod laws;
mod significand;

pub use binary32::{bits32, lattice32};
pub use binary64::{bits64, lattice64};
