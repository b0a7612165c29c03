// The triangles of a mesh in the plane, made one by one as they are asked for.
ghost use Rattle.std.specs.Prelude.{◌≡◌, ◌≤◌, All, length};
ghost use Rattle.tile_mesh.specs.MeshNumbers.{IsVertexOnGrid};
ghost use Rattle.tile_mesh.specs.Numbering.{ArePoints};
ghost use Rattle.tile_mesh.specs.Plane.{point_corner, triangle_of};

use mesh_plane::{Corner, Tri};
use terrain_base::{Indexes, grid_line};
use tile_mesh::MeshPoint;

// A vertex in the plane.
fn corner(point: MeshPoint) -> Corner
    requires { IsVertexOnGrid point }
    ensures { result ≡ point_corner point }
{
    Corner {
        u: i64::from(grid_line(point.i)),
        v: i64::from(grid_line(point.j)),
        h: i32::from(point.metres),
    }
}

// The triangle of three vertices.
pub(crate) fn triangle(points: &[MeshPoint], numbers: Indexes) -> Tri
    requires points { All IsVertexOnGrid points.now }
    requires numbers { ArePoints (length points.now) numbers }
    ensures { result ≡ triangle_of points.now numbers }
{
    Tri {
        a: corner(points[numbers.a as usize]),
        b: corner(points[numbers.b as usize]),
        c: corner(points[numbers.c as usize]),
    }
}
