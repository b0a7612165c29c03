// What is remembered of a cell whose bytes are not at hand.

use crate::{CellLevel, Extremes, Square};

/// A cell in short.
#[derive(Clone, Copy, Debug, PartialEq, Eq)]
pub struct Summary {
    pub square: Square,
    pub level: CellLevel,
    /// The least and the greatest of its heights. `None` exactly where every post is void.
    pub extremes: Option<Extremes>,
}
