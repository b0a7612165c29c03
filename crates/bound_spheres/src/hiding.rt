// The certified horizon of boxes.
ghost use Rattle.std.specs.Prelude.{◌≡◌, ℕ, ℤ, ◌+◌, ◌*◌, ◌-◌, ◌^◌, ◌<◌, ◌≤◌, ◌≤ℤ◌, ◌-ℤ◌, ◌*ℤ◌, nat_le, pos, true, false, All};
ghost use Rattle.std.specs.Prelude.{unsigned_abs, IsTrue};
ghost use Rattle.std.specs.Int.{int_max};
ghost use Rattle.std.specs.List.{list_all};
ghost use Rattle.ecef_boxes.specs.Bounds.{IsBoxWithin};
ghost use Rattle.bound_spheres.specs.Horizon.{Bounds, IsHorizon, IsVectorWithin, dot, hides_of, horizon_of};
ghost use Rattle.bound_spheres.specs.Sphere.{IsCentreWithin};

use crate::Sphere;
use crate::scaled::{Vector, centre_of, corners_of};
use ecef_boxes::EcefBox;

// The square of the ellipsoid's axes.
const UNIT: i64 = 0x10_0000_0000;

// The greatest square of a length for which anything is said.
const NEAR: i64 = UNIT + 0x2000_0000;

// A product of two numbers of vectors.
fn product(a: i64, b: i64) -> i64
    requires a { unsigned_abs a ≤ 2 ^ 21 }
    requires b { unsigned_abs b ≤ 2 ^ 21 }
    ensures exact { result ≡ a *ℤ b }
    ensures size { unsigned_abs result ≤ 2 ^ 42 }
{
    a * b
}

// The inner product.
fn inner(a: &Vector, b: &Vector) -> i64
    requires a { IsVectorWithin 21 a.now }
    requires b { IsVectorWithin 21 b.now }
    ensures { result ≡ dot a.now b.now }
{
    let x = product(a.x, b.x);
    let y = product(a.y, b.y);
    let z = product(a.z, b.z);
    x + y + z
}

// How far m/256 times the centre reaches over the plane of the corner's horizon.
fn over(m: u16, both: i64, corner: i64) -> i64
    requires m { m ≤ 4096 }
    requires both { unsigned_abs both ≤ 2 ^ 37 }
    requires corner { unsigned_abs corner ≤ 2 ^ 37 }
    ensures exact { result ≡ (pos m *ℤ both) -ℤ (pos 256 *ℤ corner) }
    ensures size { unsigned_abs result ≤ 2 ^ 50 }
{
    m as i64 * both - 256 * corner
}

// The square of the length of the cross product.
fn across(corner: u64, centre: u64, both: u64) -> u128
    requires corner { corner ≤ 2 ^ 36 + 2 ^ 29 }
    requires centre { centre ≤ 2 ^ 36 + 2 ^ 29 }
    requires both { both * both ≤ corner * centre }
    ensures exact { result ≡ corner * centre - both * both }
    ensures size { result ≤ 2 ^ 73 }
{
    corner as u128 * centre as u128 - both as u128 * both as u128
}

// How far the corner is above the ellipsoid, by squares.
fn excess(corner: i64) -> u64
    requires low { pos 0 ≤ℤ corner }
    requires high { corner ≤ℤ pos (2 ^ 36 + 2 ^ 29) }
    ensures exact { result ≡ unsigned_abs (int_max (corner -ℤ pos (2 ^ 36)) (pos 0)) }
    ensures size { result ≤ 2 ^ 29 }
{
    (corner - UNIT).max(0).unsigned_abs()
}

// Whether w^2 * 2^36 is at least excess * m^2 * across, whose 2^36th part is rounded up.
fn is_beyond(w: u64, excess: u64, m: u16, across: u128) -> bool
    requires w { w ≤ 2 ^ 50 }
    requires excess { excess ≤ 2 ^ 29 }
    requires m { m ≤ 4096 }
    requires across { across ≤ 2 ^ 73 }
    ensures { result ≡ nat_le ((excess * (m * m)) * across) ((w * w) * 2 ^ 36) }
{
    let square = m as u128 * m as u128;
    let needed = excess as u128 * square * across;
    (needed + 0xf_ffff_ffff) / 0x10_0000_0000 <= w as u128 * w as u128
}

// Whether m/256 times the centre hides the corner.
fn hides(c: &Vector, p: &Vector, m: u16) -> bool
    requires c { IsVectorWithin 21 c.now }
    requires p { IsVectorWithin 21 p.now }
    requires m { m ≤ 4096 }
    ensures { result ≡ hides_of c.now p.now m }
{
    let corner = inner(p, p);
    let centre = inner(c, c);
    if corner > NEAR || centre > NEAR {
        return false;
    }
    let both = inner(c, p);
    let w = over(m, both, corner);
    if w < 0 {
        return false;
    }
    let across = across(
        corner.unsigned_abs(),
        centre.unsigned_abs(),
        both.unsigned_abs(),
    );
    is_beyond(w.unsigned_abs(), excess(corner), m, across)
}

// The greatest square of the corners' lengths, and the least inner product of the centre with them.
fn bounds(c: &Vector, corners: &[Vector]) -> (i64, i64)
    requires c { IsVectorWithin 21 c.now }
    requires corners { All (IsVectorWithin 21) corners.now }
    ensures { Bounds c.now corners.now result.0 result.1 }
{
    let mut square = 0;
    let mut product = 0x1000_0000_0000;
    for next in corners {
        square = square.max(inner(next, next));
        product = product.min(inner(c, next));
    }
    (square, product)
}

// Whether m/256 times the centre would hide even a corner as long as the longest that lies as little along the centre
// as any. Then it hides all corners. Those of a small box are much alike, so that one test mostly does for all.
fn hides_farthest(c: &Vector, corners: &[Vector], m: u16) -> bool
    requires c { IsVectorWithin 21 c.now }
    requires corners { All (IsVectorWithin 21) corners.now }
    requires m { m ≤ 4096 }
    ensures { IsTrue result → list_all (λ p. hides_of c.now p m) corners.now ≡ true }
{
    let centre = inner(c, c);
    let (square, product) = bounds(c, corners);
    if square < 0 || square > NEAR || centre > NEAR || product < 0 || product > NEAR {
        return false;
    }
    let w = over(m, product, square);
    let (longest, away, along) = (
        square.unsigned_abs(),
        centre.unsigned_abs(),
        product.unsigned_abs(),
    );
    if w < 0 || along as u128 * along as u128 > longest as u128 * away as u128 {
        return false;
    }
    let across = across(longest, away, along);
    is_beyond(w.unsigned_abs(), excess(square), m, across)
}

// Whether m/256 times the centre hides all corners.
fn hides_all(c: &Vector, corners: &[Vector], m: u16) -> bool
    requires c { IsVectorWithin 21 c.now }
    requires corners { All (IsVectorWithin 21) corners.now }
    requires m { m ≤ 4096 }
    ensures { result ≡ list_all (λ p. hides_of c.now p m) corners.now }
{
    if hides_farthest(c, corners, m) {
        return true;
    }
    for next in corners {
        if !hides(c, next, m) {
            return false;
        }
    }
    true
}

// The least multiple from `from` to 4096 that hides all corners, or else 4097.
fn rise(c: &Vector, corners: &[Vector], from: u16) -> u16
    requires c { IsVectorWithin 21 c.now }
    requires corners { All (IsVectorWithin 21) corners.now }
    requires from { from ≤ 4097 }
    ensures low { from ≤ result }
    ensures high { result ≤ 4097 }
    ensures hidden { result ≤ 4096 → list_all (λ p. hides_of c.now p result) corners.now ≡ true }
    ensures before { (k : ℕ) → from ≤ k → k < result → list_all (λ p. hides_of c.now p k) corners.now ≡ false }
{
    for m in from..4097 {
        if hides_all(c, corners, m) {
            return m;
        }
    }
    4097
}

/// The certified horizon: the least multiple from 256 to 4096, in 256ths of the scaled centre, that hides all
/// corners of all scaled boxes; None where there is none.
///
/// Each corner's condition rises with the multiple, so one pass over the boxes finds it.
pub fn horizon(sphere: &Sphere, boxes: &[EcefBox]) -> Option<u16>
    requires centre { IsCentreWithin 33 sphere.now }
    requires size { All (IsBoxWithin 33) boxes.now }
    ensures exact { result ≡ horizon_of sphere.now boxes.now }
    ensures horizon { IsHorizon sphere.now boxes.now result }
{
    let centre = centre_of(sphere);
    let mut m: u16 = 256;
    for next in boxes {
        m = rise(&centre, &corners_of(next), m);
    }
    if m <= 4096 { Some(m) } else { None }
}
