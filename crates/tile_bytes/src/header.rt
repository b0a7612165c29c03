// The header of a terrain file.
ghost use Rattle.std.specs.Prelude.{◌≡◌, ◌<◌, ◌≤◌, ◌^◌, pos, ◌≤ℤ◌, All, unsigned_abs};
ghost use Rattle.terrain_base.specs.Height.{IsHeight};
ghost use Rattle.bound_spheres.specs.Sphere.{IsCentreWithin};
ghost use Rattle.tile_rule.specs.Tile as rule;

use bound_spheres::Sphere;
use float_bits::{bits32, bits64};
use height_lattice::HeightFrame;
use mesh_codec::Header;

// A point by its patterns.
fn patterns(point: &[i64; 3], shift: u8) -> [u64; 3]
    requires size { All (λ n. unsigned_abs n < 2 ^ 53) point.now }
    requires shift { shift ≤ 63 }
    ensures { result ≡ rule.patterns shift point.now }
{
    [
        bits64(point[0], shift),
        bits64(point[1], shift),
        bits64(point[2], shift),
    ]
}

/// The header over a frame, a sphere and a horizon point. The tile's centre is that of its sphere.
pub fn header(frame: &HeightFrame, sphere: &Sphere, horizon: &[i64; 3]) -> Header
    requires base { IsHeight frame.now.base }
    requires range { frame.now.range ≤ 32767 }
    requires centre { IsCentreWithin 33 sphere.now }
    requires positive { pos 0 ≤ℤ sphere.now.radius }
    requires radius { sphere.now.radius ≤ℤ pos (2 ^ 35) }
    requires horizon { All (λ n. unsigned_abs n < 2 ^ 53) horizon.now }
    ensures { result ≡ rule.header_of frame.now sphere.now horizon.now }
{
    let centre = patterns(&[sphere.x, sphere.y, sphere.z], 8);
    let base = frame.base as i32;
    Header {
        centre,
        least: bits32(base),
        greatest: bits32(base + frame.range as i32),
        sphere_centre: centre,
        radius: bits64(sphere.radius, 8),
        horizon: patterns(horizon, 28),
    }
}
