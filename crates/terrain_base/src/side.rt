// The sides of a tile.

/// A side of a tile or of a square. Lists over all sides go in this order, that of the edge lists of a quantized-mesh
/// tile.
#[derive(Clone, Copy, Debug, PartialEq, Eq)]
pub enum Side {
    West,
    South,
    East,
    North,
}
