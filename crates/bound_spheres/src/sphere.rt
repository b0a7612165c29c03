// The sphere of boxes.
ghost use Rattle.std.specs.Prelude.{◌≡◌, ◌<◌, ◌≤◌, ◌^◌, ◌+ℤ◌, ◌≤ℤ◌, pos, All, length, unsigned_abs};
ghost use Rattle.terrain_base.specs.Division.{floor_of};
ghost use Rattle.ecef_boxes.specs.Bounds.{IsBoxWithin};
ghost use Rattle.bound_spheres.specs.Sphere.{IsCentreWithin, IsSphere};
ghost use Rattle.bound_spheres.specs.Sphere as of_boxes;

use crate::distance::{farthest, root_up};
use crate::extent::hull;
use ecef_boxes::EcefBox;

/// A sphere in Earth-fixed coordinates, in units of 2^-8 m.
#[derive(Clone, Copy, Debug, PartialEq, Eq)]
pub struct Sphere {
    pub x: i64,
    pub y: i64,
    pub z: i64,
    pub radius: i64,
}

// The middle, rounded down.
fn middle(lo: i64, hi: i64) -> i64
    requires lo { unsigned_abs lo ≤ 2 ^ 33 }
    requires hi { unsigned_abs hi ≤ 2 ^ 33 }
    ensures exact { result ≡ floor_of (lo +ℤ hi) (pos 2) }
    ensures size { unsigned_abs result ≤ 2 ^ 33 }
{
    (lo + hi).div_euclid(2)
}

/// The sphere of the boxes, of which there is at least one, with every number within -2^33 to 2^33.
///
/// On each axis the centre is the middle, rounded down, between the least low end and the greatest high end.
/// The radius is the least whole number that reaches every corner of every box; it is at most 2^35.
pub fn sphere_of(boxes: &[EcefBox]) -> Sphere
    requires some { 0 < length boxes.now }
    requires size { All (IsBoxWithin 33) boxes.now }
    ensures sphere { IsSphere boxes.now result }
    ensures centre { IsCentreWithin 33 result }
    ensures radius { result.radius ≤ℤ pos (2 ^ 35) }
    ensures exact { result ≡ of_boxes.sphere_of boxes.now }
{
    let hull = hull(boxes);
    let x = middle(hull.x_lo, hull.x_hi);
    let y = middle(hull.y_lo, hull.y_hi);
    let z = middle(hull.z_lo, hull.z_hi);
    Sphere {
        x,
        y,
        z,
        radius: root_up(farthest(x, y, z, boxes)) as i64,
    }
}
