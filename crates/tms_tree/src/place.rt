// A point on the Earth.

/// The point `p * 180 / d` degrees east of 180 degrees west and `q * 180 / d` degrees north of the
/// south pole. Every call that takes one asks that `0 < d <= 2^29`, `p <= 2 * d` and `q <= d`.
#[derive(Clone, Copy, Debug, PartialEq, Eq)]
pub struct Place {
    /// Units of `180 / d` degrees east of 180 degrees west.
    pub p: u64,
    /// Units of `180 / d` degrees north of the south pole.
    pub q: u64,
    /// How many units half a turn has.
    pub d: u64,
}
