//! The ends of a segment, as crossings.
ghost use Rattle.std.specs.Prelude.{◌≡◌, pos, ◌<ℤ◌, ◌≤◌, ◌^◌, All, unsigned_abs};
ghost use Rattle.mesh_plane.specs.Plane.{doubled_area, IsTilePoint, IsTileTri};
ghost use Rattle.mesh_plane.specs.Surface.{lift_of};
ghost use Rattle.mesh_plane.specs.Cover.{Covers};
ghost use Rattle.mesh_query.specs.Ends.{IsStart};
ghost use Rattle.mesh_query.specs.Metres.{IsLowTri};

use crate::crossing::{Crossing, Place, after, left_of, turn, weighed};
use crate::held::holder;
use mesh_plane::Tri;

/// Twice the area of a triangle.
fn area(tri: &Tri) -> i64
    requires tri { IsTileTri tri.now }
    ensures value { result ≡ doubled_area tri.now }
    ensures size { unsigned_abs result ≤ 2147352578 }
{
    turn(
        after(tri.b.u, tri.a.u),
        after(tri.b.v, tri.a.v),
        after(tri.c.u, tri.a.u),
        after(tri.c.v, tri.a.v),
    )
}

/// The height of the triangle's plane at the place, times the doubled area.
fn lift(tri: &Tri, place: &Place) -> i64
    requires tri { IsTileTri tri.now }
    requires low { IsLowTri tri.now }
    requires place { IsTilePoint (pos 1) place.now.u place.now.v }
    ensures value { result ≡ lift_of tri.now (pos 1) place.now.u place.now.v }
    ensures size { unsigned_abs result ≤ 2 ^ 50 }
{
    let a = weighed(left_of(place, &tri.b, &tri.c), tri.a.h);
    let b = weighed(left_of(place, &tri.c, &tri.a), tri.b.h);
    let c = weighed(left_of(place, &tri.a, &tri.b), tri.c.h);
    a + b + c
}

/// The start of a segment at the place: the fraction 0, and the height of the surface there.
///
/// The triangles cover the tile, and their corners are within 65535 metres.
pub fn start(tris: &[Tri], place: &Place) -> Crossing
    requires tris { All IsTileTri tris.now }
    requires covers { Covers tris.now }
    requires low { All IsLowTri tris.now }
    requires place { IsTilePoint (pos 1) place.now.u place.now.v }
    ensures { IsStart tris.now place.now result }
{
    let tri = tris[holder(tris, 1, place.u, place.v)];
    Crossing {
        over: 0,
        under: area(&tri),
        height: lift(&tri, place),
    }
}
