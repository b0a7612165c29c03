// What a cell has at a point of its lattice, and over all of them.

/// A post of a cell: the elevation at a point of its lattice.
#[derive(Clone, Copy, Debug, PartialEq, Eq)]
pub enum Post {
    /// No elevation is known.
    Void,
    /// Whole metres.
    Metres(i16),
}

/// The least and the greatest of some heights, in metres.
#[derive(Clone, Copy, Debug, PartialEq, Eq)]
pub struct Extremes {
    pub least: i16,
    pub greatest: i16,
}
