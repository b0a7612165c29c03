// A vertex by its codes.

/// A vertex by its codes, each from 0 to 32767: `u` from the west edge to the east edge, `v` from the south
/// edge to the north edge, and the height from the tile's least to its greatest.
#[derive(Clone, Copy, Debug, PartialEq, Eq)]
pub struct Codes {
    pub u: u16,
    pub v: u16,
    pub height: u16,
}
