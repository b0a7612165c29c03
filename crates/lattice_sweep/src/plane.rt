// Sides, lifts and gaps of a triangle of the tile at the scale 10125, in 64 bits.
ghost use Rattle.std.specs.Prelude.{◌≡◌, ℤ, pos, ◌+ℤ◌, ◌-ℤ◌, ◌*ℤ◌, ◌≤ℤ◌, ◌<ℤ◌, ◌^◌, ◌*◌, ◌≤◌, unsigned_abs};
ghost use Rattle.mesh_plane.specs.Plane.{side_of, doubled_area, TriangleHolds, IsOnTile, IsTileTri, IsTilePoint, IsCounterClockwise};
ghost use Rattle.mesh_plane.specs.Surface.{lift_of, gap_over, gap_under};
ghost use Rattle.std.specs.Int.{int_min};
ghost use Rattle.terrain_base.specs.Height.{IsHeight};
ghost use Rattle.terrain_base.specs.declared.post.Post.TheVariants.{Void, Metres};
ghost use Rattle.dted_cell.specs.Elevation.{IsPost};
ghost use Rattle.lattice_sweep.specs.Plane.{IsTerrainTri, HeldLift};

use mesh_plane::{Corner, Tri};
use terrain_base::Post;

// So many units of the sweep are one of the tile.
const SCALE: i64 = 10125;

// The tile's side at the scale.
const SIDE: i64 = 32767 * SCALE;

// A coordinate at the scale.
pub(crate) fn scaled(n: i64) -> i64
    requires low { pos 0 ≤ℤ n }
    requires high { n ≤ℤ pos 32767 }
    ensures value { result ≡ pos 10125 *ℤ n }
    ensures low { pos 0 ≤ℤ result }
    ensures high { result ≤ℤ pos 331765875 }
{
    SCALE * n
}

// A difference of coordinates times one at the scale.
fn product(a: i64, b: i64) -> i64
    requires a { unsigned_abs a ≤ 2 ^ 15 }
    requires b { unsigned_abs b ≤ 2 ^ 29 }
    ensures value { result ≡ a *ℤ b }
    ensures size { unsigned_abs result ≤ 2 ^ 44 }
{
    a * b
}

// On which side of the line from `a` to `b` the point (u/10125, v/10125) lies.
pub(crate) fn side(a: &Corner, b: &Corner, u: i64, v: i64) -> i64
    requires a { IsOnTile a.now }
    requires b { IsOnTile b.now }
    requires point { IsTilePoint (pos 10125) u v }
    ensures value { result ≡ side_of a.now b.now (pos 10125) u v }
    ensures size { unsigned_abs result ≤ 2 ^ 45 }
{
    let across = product(b.u - a.u, v - scaled(a.v));
    let along = product(b.v - a.v, u - scaled(a.u));
    across - along
}

// A step of an axis, or the tile's side where it is longer: then no two of its points lie on the tile.
pub(crate) fn pace(step: i64) -> i64
    requires { pos 1 ≤ℤ step }
    ensures value { result ≡ int_min step (pos 331765875) }
    ensures low { pos 1 ≤ℤ result }
    ensures high { result ≤ℤ pos 331765875 }
{
    step.min(SIDE)
}

// By how much the side of the line from `a` to `b` grows when the point moves so far north.
pub(crate) fn side_rise(a: &Corner, b: &Corner, step: i64) -> i64
    requires a { IsOnTile a.now }
    requires b { IsOnTile b.now }
    requires low { pos 1 ≤ℤ step }
    requires high { step ≤ℤ pos 331765875 }
    ensures value { result ≡ (b.now.u -ℤ a.now.u) *ℤ step }
    ensures size { unsigned_abs result ≤ 2 ^ 44 }
{
    product(b.u - a.u, step)
}

// Metres times a side or an area.
fn weighted(metres: i64, n: i64) -> i64
    requires metres { unsigned_abs metres ≤ 16000 }
    requires n { unsigned_abs n ≤ 2 ^ 45 }
    ensures value { result ≡ metres *ℤ n }
    ensures size { unsigned_abs result ≤ 16000 * 2 ^ 45 }
{
    metres * n
}

// By how much the plane's lift grows when the point moves so far north.
pub(crate) fn lift_rise(tri: &Tri, step: i64) -> i64
    requires tri { IsTerrainTri tri.now }
    requires low { pos 1 ≤ℤ step }
    requires high { step ≤ℤ pos 331765875 }
    ensures value { (u v : ℤ) →
        lift_of tri.now (pos 10125) u (v +ℤ step) ≡ lift_of tri.now (pos 10125) u v +ℤ result }
    ensures size { unsigned_abs result ≤ 48000 * 2 ^ 45 }
{
    let ab = side_rise(&tri.a, &tri.b, step);
    let bc = side_rise(&tri.b, &tri.c, step);
    let ca = side_rise(&tri.c, &tri.a, step);
    let a = weighted(i64::from(tri.a.h), bc);
    let b = weighted(i64::from(tri.b.h), ca);
    let c = weighted(i64::from(tri.c.h), ab);
    a + b + c
}

/// The height of the triangle's plane at the point, times the area at the scale, where the triangle holds the point.
pub fn lift_within(tri: &Tri, u: i64, v: i64) -> Option<i64>
    requires tri { IsTerrainTri tri.now }
    requires point { IsTilePoint (pos 10125) u v }
    ensures { HeldLift tri.now u v result }
{
    let ab = side(&tri.a, &tri.b, u, v);
    let bc = side(&tri.b, &tri.c, u, v);
    let ca = side(&tri.c, &tri.a, u, v);
    if ab < 0 || bc < 0 || ca < 0 {
        return None;
    }
    let a = weighted(i64::from(tri.a.h), bc);
    let b = weighted(i64::from(tri.b.h), ca);
    let c = weighted(i64::from(tri.c.h), ab);
    Some(a + b + c)
}

/// Twice the triangle's area at the scale, by which a lift is divided.
pub fn area(tri: &Tri) -> i64
    requires { IsTerrainTri tri.now }
    ensures value { result ≡ gap_under tri.now (pos 10125) }
    ensures size { unsigned_abs result ≤ 2 ^ 45 }
    ensures above_zero { pos 0 <ℤ result }
{
    side(&tri.a, &tri.b, scaled(tri.c.u), scaled(tri.c.v))
}

/// How far the plane is from a post, times the area at the scale.
pub fn gap(lift: i64, under: i64, metres: i16) -> u64
    requires above_zero { pos 0 <ℤ under }
    requires under { unsigned_abs under ≤ 2 ^ 45 }
    requires low { ((pos 0 -ℤ pos 16000) *ℤ under) ≤ℤ lift }
    requires high { lift ≤ℤ (pos 16000 *ℤ under) }
    requires metres { IsHeight metres }
    ensures value { result ≡ unsigned_abs (lift -ℤ metres *ℤ under) }
    ensures size { pos result ≤ℤ (pos 32000 *ℤ under) }
{
    (lift - weighted(i64::from(metres), under)).unsigned_abs()
}

// The same of a post: 0 of a void.
pub(crate) fn post_gap(lift: i64, under: i64, post: Post) -> u64
    requires above_zero { pos 0 <ℤ under }
    requires under { unsigned_abs under ≤ 2 ^ 45 }
    requires low { ((pos 0 -ℤ pos 16000) *ℤ under) ≤ℤ lift }
    requires high { lift ≤ℤ (pos 16000 *ℤ under) }
    requires post { IsPost post }
    ensures void { post ≡ Void → result ≡ 0 }
    ensures metres { (metres : ℤ) → post ≡ Metres metres →
        result ≡ unsigned_abs (lift -ℤ metres *ℤ under) }
    ensures size { pos result ≤ℤ (pos 32000 *ℤ under) }
{
    match post {
        Post::Void => 0,
        Post::Metres(metres) => gap(lift, under, metres),
    }
}
