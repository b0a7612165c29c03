//! HGT files of the Shuttle Radar Topography Mission (SRTM), read where their bytes lie, and the DTED cells of them.
#![tactic(auto)]

mod convert;
pub mod laws;
mod name;
mod refusal;
mod sample;
#[cfg(test)]
mod tests;
mod text;
mod view;

pub use convert::to_cell;
pub use name::hgt_square;
pub use refusal::HgtRefusal;
pub use text::hgt_refusal_text;
pub use view::HgtView;
