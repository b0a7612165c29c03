//! Arithmetic on intervals of whole numbers that is rounded outward, and bounds of sines and cosines by it.
#![tactic(auto)]

mod interval;
mod sine_cosine;

pub use interval::{Interval, ONE, add, div_pos, div_whole, mul, sqrt, sub};
pub use sine_cosine::{SineCosine, half_turn};

#[cfg(test)]
mod tests;
