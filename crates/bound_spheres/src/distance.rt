// How far the corners of boxes are from a point.
ghost use Rattle.std.specs.Prelude.{◌≡◌, ℕ, ◌*◌, ◌^◌, ◌≤◌, ◌<◌, All, unsigned_abs};
ghost use Rattle.ecef_boxes.specs.Bounds.{IsBoxWithin};
ghost use Rattle.bound_spheres.specs.Reach.{farthest_of, reach_of, span_reach};

use ecef_boxes::EcefBox;
use terrain_base::isqrt;

// The square of the distance of the farther of two ends, on one axis.
fn span(at: i64, lo: i64, hi: i64) -> u128
    requires at { unsigned_abs at ≤ 2 ^ 33 }
    requires lo { unsigned_abs lo ≤ 2 ^ 33 }
    requires hi { unsigned_abs hi ≤ 2 ^ 33 }
    ensures exact { result ≡ span_reach at lo hi * span_reach at lo hi }
    ensures few { result ≤ 2 ^ 68 }
{
    let reach = lo.abs_diff(at).max(hi.abs_diff(at)) as u128;
    reach * reach
}

// The square of the distance of the box's farthest corner.
fn reach(x: i64, y: i64, z: i64, corners: &EcefBox) -> u128
    requires x { unsigned_abs x ≤ 2 ^ 33 }
    requires y { unsigned_abs y ≤ 2 ^ 33 }
    requires z { unsigned_abs z ≤ 2 ^ 33 }
    requires size { IsBoxWithin 33 corners.now }
    ensures exact { result ≡ reach_of x y z corners.now }
    ensures few { result ≤ 2 ^ 70 }
{
    span(x, corners.x_lo, corners.x_hi)
        + span(y, corners.y_lo, corners.y_hi)
        + span(z, corners.z_lo, corners.z_hi)
}

/// The square of the distance of the farthest corner of the boxes.
pub fn farthest(x: i64, y: i64, z: i64, boxes: &[EcefBox]) -> u128
    requires x { unsigned_abs x ≤ 2 ^ 33 }
    requires y { unsigned_abs y ≤ 2 ^ 33 }
    requires z { unsigned_abs z ≤ 2 ^ 33 }
    requires size { All (IsBoxWithin 33) boxes.now }
    ensures exact { result ≡ farthest_of x y z boxes.now }
    ensures few { result ≤ 2 ^ 70 }
{
    let mut far: u128 = 0;
    for next in boxes {
        far = far.max(reach(x, y, z, next));
    }
    far
}

/// The least whole number whose square is at least n.
pub fn root_up(n: u128) -> u128
    requires { n ≤ 2 ^ 70 }
    ensures up { n ≤ result * result }
    ensures least { (k : ℕ) → n ≤ k * k → result ≤ k }
    ensures few { result ≤ 2 ^ 35 }
{
    let root = isqrt(n);
    if root * root == n { root } else { root + 1 }
}
