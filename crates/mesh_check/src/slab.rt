// Slabs of the tile, and the parts of edges in them.

ghost use Rattle.std.specs.Prelude.{◌≡◌, ◌↔◌, ◌+◌, ◌^◌, ◌≤◌, ℤ, pos, ◌≤ℤ◌, ◌<ℤ◌, ◌*ℤ◌, IsTrue, unsigned_abs};
ghost use Rattle.mesh_check.specs.Slab.{over, under, Spans, IsSame, IsTileSlab, IsTileSegment, IsCode, HasSameEnds};
ghost use Rattle.mesh_check.specs.Slab.{upright_of};

use mesh_plane::Corner;

/// What lies between two levels.
#[derive(Clone, Copy, Debug, PartialEq, Eq)]
pub struct Slab {
    pub low: i64,
    pub high: i64,
}

/// A straight line from its low end to its high end.
#[derive(Clone, Copy, Debug, PartialEq, Eq)]
pub struct Segment {
    pub low: Corner,
    pub high: Corner,
}

/// A product of a number of at most 30 bits and one of at most 15.
fn product(a: i64, b: i64) -> i64
    requires a_low { pos 0 ≤ℤ a }
    requires a_high { a ≤ℤ pos 1073741824 }
    requires b_low { pos 0 ≤ℤ b }
    requires b_high { b ≤ℤ pos 32768 }
    ensures value { result ≡ a *ℤ b }
    ensures low { pos 0 ≤ℤ result }
    ensures high { result ≤ℤ pos 35184372088832 }
{
    a * b
}

/// How far the segment rises.
pub(crate) fn rise(segment: &Segment) -> i64
    requires segment { IsTileSegment segment.now }
    requires up { segment.now.low.v <ℤ segment.now.high.v }
    ensures value { result ≡ under segment.now }
    ensures low { pos 1 ≤ℤ result }
    ensures high { result ≤ℤ pos 32767 }
{
    segment.high.v - segment.low.v
}

/// The u of the segment at a level, times its rise.
pub(crate) fn across(segment: &Segment, v: i64) -> i64
    requires segment { IsTileSegment segment.now }
    requires low { segment.now.low.v ≤ℤ v }
    requires high { v ≤ℤ segment.now.high.v }
    ensures value { result ≡ over segment.now v }
    ensures low { pos 0 ≤ℤ result }
    ensures high { result ≤ℤ pos 1073676289 }
{
    let low = product(segment.low.u, segment.high.v - v);
    let high = product(segment.high.u, v - segment.low.v);
    low + high
}

/// Whether both segments have one u at a level.
fn same_at(a: &Segment, b: &Segment, v: i64) -> bool
    requires a { IsTileSegment a.now }
    requires b { IsTileSegment b.now }
    requires a_up { a.now.low.v <ℤ a.now.high.v }
    requires b_up { b.now.low.v <ℤ b.now.high.v }
    requires a_low { a.now.low.v ≤ℤ v }
    requires a_high { v ≤ℤ a.now.high.v }
    requires b_low { b.now.low.v ≤ℤ v }
    requires b_high { v ≤ℤ b.now.high.v }
    ensures { IsTrue result ↔ (over a.now v *ℤ under b.now ≡ over b.now v *ℤ under a.now) }
{
    product(across(a, v), rise(b)) == product(across(b, v), rise(a))
}

/// Whether both segments have the same ends.
fn has_same_ends(a: &Segment, b: &Segment) -> bool
    ensures { IsTrue result → HasSameEnds a.now b.now }
{
    a.low.u == b.low.u && a.low.v == b.low.v && a.high.u == b.high.u && a.high.v == b.high.v
}

/// Whether both segments have one u on both levels of the slab.
fn same_on_levels(slab: &Slab, a: &Segment, b: &Segment) -> bool
    requires slab { IsTileSlab slab.now }
    requires a { IsTileSegment a.now }
    requires b { IsTileSegment b.now }
    requires a_spans { Spans slab.now a.now }
    requires b_spans { Spans slab.now b.now }
    ensures { IsTrue result ↔ IsSame slab.now a.now b.now }
{
    same_at(a, b, slab.low) && same_at(a, b, slab.high)
}

/// Whether both segments are one in the slab. Those of neighbours mostly are one edge, which needs no products.
pub(crate) fn is_same(slab: &Slab, a: &Segment, b: &Segment) -> bool
    requires slab { IsTileSlab slab.now }
    requires a { IsTileSegment a.now }
    requires b { IsTileSegment b.now }
    requires a_spans { Spans slab.now a.now }
    requires b_spans { Spans slab.now b.now }
    ensures { IsTrue result ↔ IsSame slab.now a.now b.now }
{
    has_same_ends(a, b) || same_on_levels(slab, a, b)
}

/// The segment with its heights in place of u, so that heights are compared as places are.
pub(crate) fn upright(segment: &Segment) -> Segment
    requires low { IsCode (segment.now.low.h) }
    requires high { IsCode (segment.now.high.h) }
    ensures { result ≡ upright_of segment.now }
{
    Segment {
        low: Corner {
            u: i64::from(segment.low.h),
            v: segment.low.v,
            h: 0,
        },
        high: Corner {
            u: i64::from(segment.high.h),
            v: segment.high.v,
            h: 0,
        },
    }
}
