// Radii of the WGS 84 ellipsoid, as intervals.
ghost use Rattle.std.specs.Prelude.{◌≡◌, ℕ, ℤ, ◌*◌, ◌^◌, ◌≤◌, ◌≤ℤ◌, ◌<ℤ◌, pos, unsigned_abs};
ghost use Rattle.ecef_boxes.specs.Bounds.{IsInside};
ghost use Rattle.ecef_boxes.specs.Box.{whole_of, eccentricity_of, narrowing_of, radii_of, from_axis_of};
ghost use Rattle.ecef_boxes.specs.Box.{along_axis_of};

use whole_interval::{Interval, ONE, add, div_pos, mul, sqrt, sub};

// The semi-major axis in metres.
const SEMI_MAJOR_AXIS: i128 = 6_378_137;

// The flattening is 10^9 over this.
const INVERSE_FLATTENING: i128 = 298_257_223_563;

// The square of the first eccentricity, f * (2 - f), is 10^9 * (2 * 298257223563 - 10^9) over 298257223563^2.
const ECCENTRICITY_SQUARED: i128 = 1_000_000_000 * (2 * INVERSE_FLATTENING - 1_000_000_000);

// In units of 2^-48 it is from this number, which is rounded down, to the next.
const ECCENTRICITY_LOW: i128 = ECCENTRICITY_SQUARED * ONE
    / (INVERSE_FLATTENING * INVERSE_FLATTENING);

// A whole number.
fn exactly(n: i128) -> Interval
    requires { unsigned_abs n ≤ 2 ^ 23 }
    ensures { result ≡ whole_of n }
{
    Interval {
        lo: n * ONE,
        hi: n * ONE,
    }
}

// The square of the eccentricity.
fn eccentricity() -> Interval
    ensures { result ≡ eccentricity_of }
{
    Interval {
        lo: ECCENTRICITY_LOW,
        hi: ECCENTRICITY_LOW + 1,
    }
}

// 1 - e^2 * sine^2.
fn narrowing(sine: &Interval) -> Interval
    requires { IsInside (9 * 2 ^ 45) sine.now }
    ensures { result ≡ narrowing_of sine.now }
{
    sub(&exactly(1), &mul(&eccentricity(), &mul(sine, sine)))
}

/// The radius of curvature in the prime vertical in metres, where the latitude has this sine.
pub fn radii(sine: &Interval) -> Interval
    requires { IsInside (9 * 2 ^ 45) sine.now }
    ensures exact { result ≡ radii_of sine.now }
    ensures positive { pos 0 <ℤ result.lo }
    ensures size { IsInside (6428360 * 2 ^ 48) result }
{
    div_pos(&exactly(SEMI_MAJOR_AXIS), &sqrt(&narrowing(sine)))
}

/// How far the point is from the Earth's axis: (N + h) * cos(latitude), in metres.
pub fn from_axis(radii: &Interval, metres: i128, cosine: &Interval) -> Interval
    requires radii { IsInside (6428360 * 2 ^ 48) radii.now }
    requires metres { unsigned_abs metres ≤ 16000 }
    requires cosine { IsInside (9 * 2 ^ 45) cosine.now }
    ensures exact { result ≡ from_axis_of radii.now metres cosine.now }
    ensures size { IsInside (57999240 * 2 ^ 45) result }
{
    mul(&add(radii, &exactly(metres)), cosine)
}

/// How far the point is north of the equator's plane: (N * (1 - e^2) + h) * sin(latitude), in metres.
pub fn along_axis(radii: &Interval, metres: i128, sine: &Interval) -> Interval
    requires radii { IsInside (6428360 * 2 ^ 48) radii.now }
    requires metres { unsigned_abs metres ≤ 16000 }
    requires sine { IsInside (9 * 2 ^ 45) sine.now }
    ensures exact { result ≡ along_axis_of radii.now metres sine.now }
    ensures size { IsInside (57999240 * 2 ^ 45) result }
{
    let shortened = mul(radii, &sub(&exactly(1), &eccentricity()));
    mul(&add(&shortened, &exactly(metres)), sine)
}
