//! Where a segment crosses the sides of triangles.

ghost use Rattle.std.specs.Prelude.{◌≡◌, ℤ, pos, ◌+ℤ◌, ◌-ℤ◌, ◌*ℤ◌, ◌≤ℤ◌, ◌<ℤ◌, ◌≤◌, ◌^◌, unsigned_abs, IfSome, IfNone};
ghost use Rattle.mesh_plane.specs.Plane.{point, side_of, IsOnTile, IsTilePoint};
ghost use Rattle.mesh_query.specs.Crossing.{aside, CrossesOut, crossing, side_height};
ghost use Rattle.mesh_query.specs.Found.{IsCrossing, at_place};
ghost use Rattle.mesh_query.specs.Metres.{IsLow};

use mesh_plane::Corner;

/// A point of the tile, each coordinate from 0 to 32767.
#[derive(Clone, Copy)]
pub struct Place {
    pub u: i64,
    pub v: i64,
}

/// A fraction of the way along a segment, `over/under`, and the height there, `height/under` metres.
#[derive(Clone, Copy)]
pub struct Crossing {
    pub over: i64,
    pub under: i64,
    pub height: i64,
}

/// How far a coordinate is after another.
pub(crate) fn after(a: i64, b: i64) -> i64
    requires a_low { pos 0 ≤ℤ a }
    requires a_high { a ≤ℤ pos 32767 }
    requires b_low { pos 0 ≤ℤ b }
    requires b_high { b ≤ℤ pos 32767 }
    ensures value { result ≡ a -ℤ b }
    ensures size { unsigned_abs result ≤ 32767 }
{
    a - b
}

/// How far the second direction turns to the left of the first.
pub(crate) fn turn(au: i64, av: i64, bu: i64, bv: i64) -> i64
    requires au { unsigned_abs au ≤ 32767 }
    requires av { unsigned_abs av ≤ 32767 }
    requires bu { unsigned_abs bu ≤ 32767 }
    requires bv { unsigned_abs bv ≤ 32767 }
    ensures value { result ≡ au *ℤ bv -ℤ av *ℤ bu }
    ensures size { unsigned_abs result ≤ 2147352578 }
{
    au * bv - av * bu
}

/// How far the first place is to the left of the side from `a` to `b`.
pub(crate) fn left_of(from: &Place, a: &Corner, b: &Corner) -> i64
    requires from { IsTilePoint (pos 1) from.now.u from.now.v }
    requires a { IsOnTile a.now }
    requires b { IsOnTile b.now }
    ensures value { result ≡ side_of a.now b.now (pos 1) from.now.u from.now.v }
    ensures size { unsigned_abs result ≤ 2147352578 }
{
    turn(
        after(b.u, a.u),
        after(b.v, a.v),
        after(from.u, a.u),
        after(from.v, a.v),
    )
}

/// How much less that is at the second place.
fn fall_of(from: &Place, to: &Place, a: &Corner, b: &Corner) -> i64
    requires from { IsTilePoint (pos 1) from.now.u from.now.v }
    requires to { IsTilePoint (pos 1) to.now.u to.now.v }
    requires a { IsOnTile a.now }
    requires b { IsOnTile b.now }
    ensures value { result ≡ side_of a.now b.now (pos 1) from.now.u from.now.v -ℤ side_of a.now b.now (pos 1)
        to.now.u to.now.v }
    ensures size { unsigned_abs result ≤ 2147352578 }
{
    turn(
        after(to.u, from.u),
        after(to.v, from.v),
        after(b.u, a.u),
        after(b.v, a.v),
    )
}

/// How far a corner is to the left of the segment: twice the area of the triangle of the two places and the corner,
/// below 0 where the corner is to the right.
pub fn aside_of(from: &Place, to: &Place, corner: &Corner) -> i64
    requires from { IsTilePoint (pos 1) from.now.u from.now.v }
    requires to { IsTilePoint (pos 1) to.now.u to.now.v }
    requires corner { IsOnTile corner.now }
    ensures value { result ≡ aside (at_place from.now) (at_place to.now) corner.now }
    ensures size { unsigned_abs result ≤ 2147352578 }
{
    turn(
        after(to.u, from.u),
        after(to.v, from.v),
        after(corner.u, from.u),
        after(corner.v, from.v),
    )
}

/// A weight times a height.
pub(crate) fn weighed(weight: i64, height: i32) -> i64
    requires weight { unsigned_abs weight ≤ 4294705156 }
    requires height { unsigned_abs height ≤ 65535 }
    ensures value { result ≡ weight *ℤ height }
    ensures size { unsigned_abs result ≤ 2 ^ 48 }
{
    weight * i64::from(height)
}

/// Where the segment crosses the side from `a` to `b` from its left to its right, and the height of the side there.
/// None where it does not.
pub fn cross_out(from: &Place, to: &Place, a: &Corner, b: &Corner) -> Option<Crossing>
    requires from { IsTilePoint (pos 1) from.now.u from.now.v }
    requires to { IsTilePoint (pos 1) to.now.u to.now.v }
    requires a { IsOnTile a.now }
    requires b { IsOnTile b.now }
    requires a_low { IsLow a.now }
    requires b_low { IsLow b.now }
    ensures some { IfSome result (λ c. IsCrossing (at_place from.now) (at_place to.now) a.now b.now c) }
    ensures none { IfNone result (¬ CrossesOut (at_place from.now) (at_place to.now) a.now b.now) }
{
    let under = fall_of(from, to, a, b);
    let over = left_of(from, a, b);
    let first = aside_of(from, to, a);
    if under <= 0 || over < 0 || over > under || first > 0 || under + first < 0 {
        return None;
    }
    Some(Crossing {
        over,
        under,
        height: weighed(under + first, a.h) - weighed(first, b.h),
    })
}
