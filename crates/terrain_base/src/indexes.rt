// A triangle by its vertices.

/// The vertex numbers of a triangle, counter-clockwise.
#[derive(Clone, Copy, Debug, PartialEq, Eq)]
pub struct Indexes {
    pub a: u32,
    pub b: u32,
    pub c: u32,
}
