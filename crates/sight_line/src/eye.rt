//! Points that see, and what a question of sight answers.

use mesh_query::{Ratio, Spot};

/// A point over a spot of the tile, at a height within 65535 metres.
#[derive(Clone, Copy, Debug, PartialEq, Eq)]
pub struct Eye {
    pub spot: Spot,
    pub metres: i32,
}

/// Whether one point sees another.
#[derive(Clone, Copy, Debug, PartialEq, Eq)]
pub enum SightAnswer {
    /// Nowhere on the way is the straight line below the surface.
    Clear,
    /// The first break of the way at which the line is below the surface, as a fraction of the way; the least number of
    /// a triangle that holds the point there; and both heights there, in metres. The fractions are in lowest terms.
    Blocked {
        at: Ratio,
        triangle: u32,
        ground: Ratio,
        line: Ratio,
    },
}
