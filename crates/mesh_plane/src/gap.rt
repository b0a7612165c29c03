//! How far a height is from a triangle's plane.

ghost use Rattle.std.specs.Prelude.{◌≡◌, ℤ, pos, ◌+ℤ◌, ◌-ℤ◌, ◌*ℤ◌, ◌≤ℤ◌, ◌<ℤ◌, ◌^◌, ◌≤◌, unsigned_abs};
ghost use Rattle.mesh_plane.specs.Plane.{IsCounterClockwise, IsScale, IsTilePoint, IsTileTri};
ghost use Rattle.mesh_plane.specs.Surface.{lift_of, gap_over, gap_under, IsCeiling};

use crate::corner::{Corner, Tri, doubled, side};

/// A fraction, of which `under` is above 0.
#[derive(Clone, Copy, Debug, PartialEq, Eq)]
pub struct Gap {
    pub over: i128,
    pub under: i128,
}

/// A height times a side, or times a doubled area at a scale.
fn weighted(height: i32, n: i128) -> i128
    requires { unsigned_abs n ≤ 2 ^ 93 }
    ensures value { result ≡ height *ℤ n }
    ensures size { unsigned_abs result ≤ 2 ^ 124 }
{
    i128::from(height) * n
}

/// The height of the triangle's plane at the point, times the scale and the doubled area.
fn lift(tri: &Tri, scale: i64, u: i64, v: i64) -> i128
    requires tri { IsTileTri tri.now }
    requires scale { IsScale scale }
    requires point { IsTilePoint scale u v }
    ensures value { result ≡ lift_of tri.now scale u v }
    ensures size { unsigned_abs result ≤ 2 ^ 126 }
{
    let a = weighted(tri.a.h, side(&tri.b, &tri.c, scale, u, v));
    let b = weighted(tri.b.h, side(&tri.c, &tri.a, scale, u, v));
    let c = weighted(tri.c.h, side(&tri.a, &tri.b, scale, u, v));
    a + b + c
}

/// The scale times the doubled area, by which a lift is divided.
fn area_at(tri: &Tri, scale: i64) -> i128
    requires tri { IsTileTri tri.now }
    requires scale { IsScale scale }
    ensures value { result ≡ gap_under tri.now scale }
    ensures size { unsigned_abs result ≤ 2 ^ 93 }
{
    i128::from(scale) * i128::from(doubled(tri))
}

/// The height of the triangle's plane at the point (u/scale, v/scale), as a fraction of a metre. `under` is
/// above 0, since the triangle is counter-clockwise.
pub fn plane_height(tri: &Tri, scale: i64, u: i64, v: i64) -> Gap
    requires tri { IsTileTri tri.now }
    requires scale { IsScale scale }
    requires point { IsTilePoint scale u v }
    requires counter_clockwise { IsCounterClockwise tri.now }
    ensures over { result.over ≡ lift_of tri.now scale u v }
    ensures under { result.under ≡ gap_under tri.now scale }
    ensures above_zero { pos 0 <ℤ result.under }
{
    Gap {
        over: lift(tri, scale, u, v),
        under: area_at(tri, scale),
    }
}

/// How far `metres` is from the height of the triangle's plane at the point (u/scale, v/scale), as a
/// fraction of a metre. `under` is above 0, since the triangle is counter-clockwise.
pub fn height_gap(tri: &Tri, scale: i64, u: i64, v: i64, metres: i32) -> Gap
    requires tri { IsTileTri tri.now }
    requires scale { IsScale scale }
    requires point { IsTilePoint scale u v }
    requires counter_clockwise { IsCounterClockwise tri.now }
    ensures over { result.over ≡ gap_over tri.now scale u v metres }
    ensures under { result.under ≡ gap_under tri.now scale }
    ensures above_zero { pos 0 <ℤ result.under }
{
    let under = area_at(tri, scale);
    let difference = lift(tri, scale, u, v) - weighted(metres, under);
    Gap {
        over: difference.abs(),
        under,
    }
}

/// The least whole number that is at least `over/under`.
pub fn ceil_gap(gap: &Gap) -> u32
    requires above_zero { pos 0 <ℤ gap.now.under }
    requires least { (pos 0 -ℤ gap.now.under) <ℤ gap.now.over }
    requires greatest { gap.now.over ≤ℤ (pos 4294967295 *ℤ gap.now.under) }
    ensures { IsCeiling gap.now.over gap.now.under (pos result) }
{
    if gap.over <= 0 {
        return 0;
    }
    let whole = (gap.over - 1) / gap.under;
    whole as u32 + 1
}
