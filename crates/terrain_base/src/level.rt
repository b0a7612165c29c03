// The levels of DTED cells, and the spacing of their posts (MIL-PRF-89020).
ghost use Rattle.std.specs.Prelude.{◌≡◌, ◌<◌, ◌≤◌, min};
ghost use Rattle.terrain_base.specs.Level.{level_number as number_of, lat_step_of, depth_of, zone_factor_of, lon_step_of, rows_of, columns_of};

use crate::Square;

/// A DTED level.
#[derive(Clone, Copy, Debug, PartialEq, Eq)]
pub enum CellLevel {
    Zero,
    One,
    Two,
}

/// The number of a level: 0, 1 or 2.
pub fn level_number(level: CellLevel) -> u8
    ensures value { result ≡ number_of level }
    ensures within { result ≤ 2 }
{
    match level {
        CellLevel::Zero => 0,
        CellLevel::One => 1,
        CellLevel::Two => 2,
    }
}

/// The spacing of a level's posts in latitude, in arc-seconds: 30, 3 or 1.
pub fn lat_step(level: CellLevel) -> u16
    ensures { result ≡ lat_step_of level }
{
    match level {
        CellLevel::Zero => 30,
        CellLevel::One => 3,
        CellLevel::Two => 1,
    }
}

// How much wider the spacing in longitude is than in latitude, by the zone of latitude.
fn zone_factor(lat: u16) -> u16
    requires { lat < 180 }
    ensures { result ≡ zone_factor_of lat }
{
    let from_equator = if lat >= 90 { lat - 90 } else { 89 - lat };
    match from_equator {
        0..=49 => 1,
        50..=69 => 2,
        70..=74 => 3,
        75..=79 => 4,
        _ => 6,
    }
}

/// The spacing in longitude of the posts of a square's cell of this level, in arc-seconds.
pub fn lon_step(square: Square, level: CellLevel) -> u16
    ensures { result ≡ lon_step_of square level }
{
    lat_step(level) * zone_factor(square.lat)
}

/// How many posts a meridian of this level has: 121, 1201 or 3601.
pub fn rows(level: CellLevel) -> u16
    ensures { result ≡ rows_of level }
{
    3600 / lat_step(level) + 1
}

/// How many meridians a square's cell of this level has.
pub fn columns(square: Square, level: CellLevel) -> u16
    ensures { result ≡ columns_of square level }
{
    3600 / lon_step(square, level) + 1
}

/// The deepest level of the tiles that a cell of this level makes, cut at the database's cap: 9, 12
/// or 14.
pub fn depth(level: CellLevel, cap: u8) -> u8
    ensures { result ≡ min (depth_of level) cap }
{
    let deepest: u8 = match level {
        CellLevel::Zero => 9,
        CellLevel::One => 12,
        CellLevel::Two => 14,
    };
    deepest.min(cap)
}
