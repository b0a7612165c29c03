// A box in Earth-fixed coordinates.

/// The points from `x_lo` to `x_hi`, from `y_lo` to `y_hi` and from `z_lo` to `z_hi`, in units of 2^-8 m.
///
/// The coordinates are Earth-fixed (WGS 84): the x axis goes through the equator at longitude 0, the y axis
/// through it at 90 degrees east, and the z axis through the north pole.
#[derive(Clone, Copy, Debug, PartialEq, Eq)]
pub struct EcefBox {
    pub x_lo: i64,
    pub x_hi: i64,
    pub y_lo: i64,
    pub y_hi: i64,
    pub z_lo: i64,
    pub z_hi: i64,
}
