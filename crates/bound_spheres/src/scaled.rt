// Numbers scaled by the axes of the ellipsoid.
ghost use Rattle.std.specs.Prelude.{◌≡◌, ◌≤◌, ◌^◌, ◌*ℤ◌, pos, All, unsigned_abs};
ghost use Rattle.terrain_base.specs.Division.{floor_of};
ghost use Rattle.ecef_boxes.specs.Bounds.{IsBoxWithin};
ghost use Rattle.bound_spheres.specs.Horizon.{IsVectorWithin, equatorial_down, equatorial_up, polar_down, polar_up};
ghost use Rattle.bound_spheres.specs.Horizon.{polar_numerator, scaled_centre, scaled_corners, vector};
ghost use Rattle.bound_spheres.specs.Sphere.{IsCentreWithin};

use crate::Sphere;
use crate::horizon_point::SEMI_MAJOR_AXIS;
use ecef_boxes::EcefBox;

// 2^18 over 2^8.
const SCALE: i64 = 0x400;

// The semi-major axis in metres, for quotients in 64 bits.
const AXIS: i64 = SEMI_MAJOR_AXIS as i64;

// The flattening is this over 298257223563, and what it leaves of the semi-major axis is ROUND over the same number.
const FLAT: i64 = 1_000_000_000;

const ROUND: i64 = 297_257_223_563;

/// A vector in units of 2^-18 of the ellipsoid's axes.
#[derive(Clone, Copy, Debug, PartialEq, Eq)]
pub struct Vector {
    pub x: i64,
    pub y: i64,
    pub z: i64,
}

// A number of the x or y axis, rounded down.
fn equatorial_low(n: i64) -> i64
    requires { unsigned_abs n ≤ 2 ^ 33 }
    ensures exact { result ≡ equatorial_down n }
    ensures size { unsigned_abs result ≤ 2 ^ 21 }
{
    (n * SCALE).div_euclid(AXIS)
}

// Rounded up.
fn equatorial_high(n: i64) -> i64
    requires { unsigned_abs n ≤ 2 ^ 33 }
    ensures exact { result ≡ equatorial_up n }
    ensures size { unsigned_abs result ≤ 2 ^ 21 }
{
    -equatorial_low(-n)
}

// A number of the z axis in units of 2^-18 m, scaled as if that axis were as long as the others, rounded down.
//
// That is n * 2^10 * (1 + FLAT / ROUND). Since n * 2^10 * FLAT does not fit 64 bits, the quotient of n * FLAT and
// what is left are scaled by 2^10 apart.
fn unflattened(n: i64) -> i64
    requires { unsigned_abs n ≤ 2 ^ 33 }
    ensures exact { result ≡ floor_of (n *ℤ pos polar_numerator) (pos 297257223563) }
    ensures size { unsigned_abs result ≤ 2 ^ 44 }
{
    let more = n * FLAT;
    let whole = more.div_euclid(ROUND);
    let left = more - whole * ROUND;
    (n + whole) * SCALE + (left * SCALE).div_euclid(ROUND)
}

// A number of the z axis, rounded down.
fn polar_low(n: i64) -> i64
    requires { unsigned_abs n ≤ 2 ^ 33 }
    ensures exact { result ≡ polar_down n }
    ensures size { unsigned_abs result ≤ 2 ^ 21 }
{
    unflattened(n).div_euclid(AXIS)
}

// Rounded up.
fn polar_high(n: i64) -> i64
    requires { unsigned_abs n ≤ 2 ^ 33 }
    ensures exact { result ≡ polar_up n }
    ensures size { unsigned_abs result ≤ 2 ^ 21 }
{
    -polar_low(-n)
}

/// The centre of a sphere in units of 2^-18 of the ellipsoid's axes, rounded down. Each number is within -2^21 to 2^21.
pub fn centre_of(sphere: &Sphere) -> Vector
    requires { IsCentreWithin 33 sphere.now }
    ensures exact { result ≡ scaled_centre sphere.now }
    ensures size { IsVectorWithin 21 result }
{
    Vector {
        x: equatorial_low(sphere.x),
        y: equatorial_low(sphere.y),
        z: polar_low(sphere.z),
    }
}

// A corner of three numbers.
fn corner(x: i64, y: i64, z: i64) -> Vector
    ensures { result ≡ vector x y z }
{
    Vector { x, y, z }
}

/// The corners of a box in the same units, rounded outwards.
pub fn corners_of(corners: &EcefBox) -> [Vector; 8]
    requires { IsBoxWithin 33 corners.now }
    ensures exact { result ≡ scaled_corners corners.now }
    ensures size { All (IsVectorWithin 21) result }
{
    let west = equatorial_low(corners.x_lo);
    let east = equatorial_high(corners.x_hi);
    let near = equatorial_low(corners.y_lo);
    let far = equatorial_high(corners.y_hi);
    let low = polar_low(corners.z_lo);
    let high = polar_high(corners.z_hi);
    [
        corner(west, near, low),
        corner(west, near, high),
        corner(west, far, low),
        corner(west, far, high),
        corner(east, near, low),
        corner(east, near, high),
        corner(east, far, low),
        corner(east, far, high),
    ]
}
