//! Heights in whole metres as height codes of quantized-mesh-1.0, exactly: a metre takes a whole number of codes.
#![tactic(auto)]

mod height_code;
mod height_frame;
pub mod laws;

pub use height_code::{code, metres};
pub use height_frame::{HeightFrame, frame};
