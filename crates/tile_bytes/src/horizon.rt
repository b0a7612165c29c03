// The horizon point of a multiple.
ghost use Rattle.std.specs.Prelude.{◌≡◌, ◌<◌, ◌≤◌, ◌^◌, All, IfSome, unsigned_abs};
ghost use Rattle.bound_spheres.specs.Sphere.{IsCentreWithin};
ghost use Rattle.tile_rule.specs.Tile as rule;

use bound_spheres::{Sphere, centre_of, far_point};

/// The horizon point in units of 2^-28 of the ellipsoid's axes: the multiple, in 256ths, of the scaled centre, whose
/// unit is 2^-18, so four times the product; the far point where there is no multiple.
pub fn horizon_point(multiple: Option<u16>, sphere: &Sphere) -> [i64; 3]
    requires multiple { IfSome multiple (λ m. m ≤ 4096) }
    requires centre { IsCentreWithin 33 sphere.now }
    ensures exact { result ≡ rule.horizon_point multiple sphere.now }
    ensures size { All (λ n. unsigned_abs n < 2 ^ 53) result }
{
    let Some(m) = multiple else {
        return far_point(sphere);
    };
    let times = 4 * m as i64;
    let centre = centre_of(sphere);
    [times * centre.x, times * centre.y, times * centre.z]
}
