//! Heights of the surface.
ghost use Rattle.std.specs.Prelude.{◌≡◌, ℤ, ◌*ℤ◌, All};
ghost use Rattle.mesh_plane.specs.Plane.{IsScale, IsTilePoint, IsTileTri};
ghost use Rattle.mesh_plane.specs.Cover.{Covers};
ghost use Rattle.mesh_plane.specs.Surface.{Surface};
ghost use Rattle.mesh_query.specs.Field.{triangles_of};
ghost use Rattle.mesh_query.specs.Ratios.{ratio, IsLowest, IsSame};

use crate::field::MeshField;
use crate::held::holder;
use crate::ratio::{Ratio, reduced};
use mesh_plane::{Tri, plane_height};

/// The height of the surface of triangles at the point (u/scale, v/scale), in metres.
fn height_over(tris: &[Tri], scale: i64, u: i64, v: i64) -> Ratio
    requires tris { All IsTileTri tris.now }
    requires covers { Covers tris.now }
    requires scale { IsScale scale }
    requires point { IsTilePoint scale u v }
    ensures surface { Surface tris.now scale u v result.over result.under }
    ensures lowest { IsLowest result }
{
    let tri = tris[holder(tris, scale, u, v)];
    let height = plane_height(&tri, scale, u, v);
    reduced(height.over, height.under)
}

/// The height of the surface at the point (u/scale, v/scale) of the tile, in metres. Takes no memory.
///
/// The scale is from 1 to 2^31, `u` and `v` from 0 to 32767 times the scale.
pub fn height_at(field: &MeshField, scale: i64, u: i64, v: i64) -> Ratio
    requires scale { IsScale scale }
    requires point { IsTilePoint scale u v }
    ensures surface { Surface (triangles_of field.now) scale u v result.over result.under }
    ensures only { (over under : ℤ) → Surface (triangles_of field.now) scale u v over under
        → IsSame (ratio over under) result }
    ensures lowest { IsLowest result }
{
    height_over(field.tris(), scale, u, v)
}
