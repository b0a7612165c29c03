// Why bytes are no tile.
use terrain_base::Side;
use thiserror::Error;

/// An array of codes, in the order of the arrays.
#[derive(Clone, Copy, Debug, PartialEq, Eq)]
pub enum Array {
    U,
    V,
    Height,
}

/// Why bytes are no tile: the first place, in the order of the bytes, that is wrong. Offsets and lengths
/// are in bytes, places in an array or list count from 0.
#[derive(Clone, Copy, Debug, Error, PartialEq, Eq)]
pub enum TileRefusal {
    /// The part at this offset, of this length, does not fit.
    #[error("truncated at {at}: need {need}")]
    Truncated { at: u64, need: u64 },
    /// The running value at this place of an array is no code from 0 to 32767.
    #[error("coordinate {k} out of range")]
    CoordinateOutOfRange { array: Array, k: u32 },
    /// The index at this place is negative or no vertex.
    #[error("index {k} out of range")]
    IndexOutOfRange { k: u64 },
    /// The index at this place of an edge's list is no vertex.
    #[error("edge index {k} too large")]
    EdgeIndexTooLarge { edge: Side, k: u32 },
    /// The extension at this offset does not fit.
    #[error("extension truncated at {at}")]
    ExtensionTruncated { at: u64 },
    /// The bytes are no tile, and begin as a gzip file does (RFC 1952).
    #[error("compressed")]
    Compressed,
}
