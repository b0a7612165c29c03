// The horizon point of a sphere.
ghost use Rattle.std.specs.Prelude.{◌≡◌, ◌≤◌, ◌^◌, All, unsigned_abs};
ghost use Rattle.bound_spheres.specs.Sphere.{IsCentreWithin};
ghost use Rattle.bound_spheres.specs.FarPoint.{equatorial_of, far_point_of, polar_of};

use crate::Sphere;
use terrain_base::floor_div;

// The semi-major axis of the WGS 84 ellipsoid in metres.
pub const SEMI_MAJOR_AXIS: i128 = 6_378_137;

// The flattening is 10^9 over this.
pub const INVERSE_FLATTENING: i128 = 298_257_223_563;

// The semi-minor axis in metres is this over the same number.
pub const SEMI_MINOR_AXIS: i128 = SEMI_MAJOR_AXIS * (INVERSE_FLATTENING - 1_000_000_000);

// Sixteen times 2^28, over 2^8.
const SCALE: i128 = 0x100_0000;

// A number of the x or y axis.
fn equatorial(n: i64) -> i64
    requires { unsigned_abs n ≤ 2 ^ 33 }
    ensures exact { result ≡ equatorial_of n }
    ensures size { unsigned_abs result ≤ 2 ^ 40 }
{
    floor_div(n as i128 * SCALE, SEMI_MAJOR_AXIS) as i64
}

// A number of the z axis.
fn polar(n: i64) -> i64
    requires { unsigned_abs n ≤ 2 ^ 33 }
    ensures exact { result ≡ polar_of n }
    ensures size { unsigned_abs result ≤ 2 ^ 40 }
{
    floor_div(n as i128 * (SCALE * INVERSE_FLATTENING), SEMI_MINOR_AXIS) as i64
}

/// The horizon point: sixteen times the sphere's centre, scaled by the axes of the WGS 84 ellipsoid, in units of
/// 2^-28 and rounded down. The centre's numbers are within -2^33 to 2^33, and those of the point within -2^40 to
/// 2^40. No claim is made of what the point hides.
pub fn far_point(sphere: &Sphere) -> [i64; 3]
    requires { IsCentreWithin 33 sphere.now }
    ensures exact { result ≡ far_point_of sphere.now }
    ensures size { All (λ n. unsigned_abs n ≤ 2 ^ 40) result }
{
    [equatorial(sphere.x), equatorial(sphere.y), polar(sphere.z)]
}
