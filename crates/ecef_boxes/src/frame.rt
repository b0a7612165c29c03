// The box of a point.
ghost use Rattle.std.specs.Prelude.{◌≡◌, ℕ, ℤ, ◌*◌, ◌^◌, ◌≤◌, ◌≤ℤ◌, ◌-ℤ◌, neg_ℤ, pos, unsigned_abs};
ghost use Rattle.tms_tree.specs.Place.{IsPlace};
ghost use Rattle.whole_interval.specs.Interval.{mul_of};
ghost use Rattle.ecef_boxes.specs.Bounds.{IsBoxWithin, IsInside};
ghost use Rattle.ecef_boxes.specs.Box.{box_of, down_of, ends_of, latitude_of, longitude_of, radii_at, up_of};
ghost use Rattle.ecef_boxes.specs.Ellipsoid.{Encloses};

use crate::EcefBox;
use crate::line::{Meridian, Parallel, box_at};
use terrain_base::{ceil_div, floor_div};
use tms_tree::Place;
use whole_interval::{Interval, SineCosine, half_turn, mul};

// How many units of 2^-48 m a unit of 2^-8 m has.
const UNIT: i128 = 0x100_0000_0000;

// The place's latitude.
pub fn latitude(place: Place) -> SineCosine
    requires { IsPlace place }
    ensures exact { result ≡ latitude_of place }
    ensures sine { IsInside (9 * 2 ^ 45) result.sine }
    ensures cosine { IsInside (9 * 2 ^ 45) result.cosine }
{
    half_turn(2 * place.q as i128 - place.d as i128, 2 * place.d as i128)
}

// The place's longitude.
pub fn longitude(place: Place) -> SineCosine
    requires { IsPlace place }
    ensures exact { result ≡ longitude_of place }
    ensures sine { IsInside (9 * 2 ^ 45) result.sine }
    ensures cosine { IsInside (9 * 2 ^ 45) result.cosine }
{
    half_turn(place.p as i128 - place.d as i128, place.d as i128)
}

// Rounded down to units of 2^-8 m.
fn down(n: i128) -> i64
    requires { unsigned_abs n ≤ 521993160 * 2 ^ 42 }
    ensures exact { result ≡ down_of n }
    ensures size { unsigned_abs result ≤ 2 ^ 31 }
{
    floor_div(n, UNIT) as i64
}

// Rounded up to units of 2^-8 m.
fn up(n: i128) -> i64
    requires { unsigned_abs n ≤ 521993160 * 2 ^ 42 }
    ensures exact { result ≡ up_of n }
    ensures size { unsigned_abs result ≤ 2 ^ 31 }
{
    ceil_div(n, UNIT) as i64
}

// The box of three coordinates.
pub fn ends(x: &Interval, y: &Interval, z: &Interval) -> EcefBox
    requires x { IsInside (521993160 * 2 ^ 42) x.now }
    requires y { IsInside (521993160 * 2 ^ 42) y.now }
    requires z { IsInside (521993160 * 2 ^ 42) z.now }
    ensures exact { result ≡ ends_of x.now y.now z.now }
    ensures size { IsBoxWithin 31 result }
{
    EcefBox {
        x_lo: down(x.lo),
        x_hi: up(x.hi),
        y_lo: down(y.lo),
        y_hi: up(y.hi),
        z_lo: down(z.lo),
        z_hi: up(z.hi),
    }
}

// The distance from the axis, times a sine or a cosine of the longitude.
pub fn sideways(out: &Interval, part: &Interval) -> Interval
    requires out { IsInside (57999240 * 2 ^ 45) out.now }
    requires part { IsInside (9 * 2 ^ 45) part.now }
    ensures exact { result ≡ mul_of out.now part.now }
    ensures size { IsInside (521993160 * 2 ^ 42) result }
{
    mul(out, part)
}

/// The box of the point that is `metres`, from -16000 to 16000, above the WGS 84 ellipsoid at the place.
///
/// It encloses what the formulas of Earth-fixed coordinates give for every sine and cosine of the place's
/// latitude and longitude. Its numbers are within -2^31 to 2^31.
pub fn frame_box(place: Place, metres: i16) -> EcefBox
    requires place { IsPlace place }
    requires low { neg_ℤ (pos 16000) ≤ℤ metres }
    requires high { metres ≤ℤ pos 16000 }
    ensures exact { result ≡ box_of place metres }
    ensures encloses { Encloses place metres (radii_at place) result }
    ensures size { IsBoxWithin 31 result }
{
    box_at(
        &Meridian::at(place.p, place.d),
        &Parallel::at(place.q, place.d),
        metres,
    )
}
