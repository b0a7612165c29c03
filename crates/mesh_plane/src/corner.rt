//! Corners and triangles, and on which side of a line a point lies.

ghost use Rattle.std.specs.Prelude.{◌≡◌, ◌↔◌, ℤ, pos, ◌+ℤ◌, ◌-ℤ◌, ◌*ℤ◌, ◌≤ℤ◌, ◌^◌, ◌≤◌, IsTrue, unsigned_abs};

/// A corner of a triangle: its place on the tile, each coordinate from 0 to 32767, and its height in
/// metres.
#[derive(Clone, Copy, Debug, PartialEq, Eq)]
pub struct Corner {
    pub u: i64,
    pub v: i64,
    pub h: i32,
}

/// A triangle, counter-clockwise where its doubled area is above 0.
#[derive(Clone, Copy, Debug, PartialEq, Eq)]
pub struct Tri {
    pub a: Corner,
    pub b: Corner,
    pub c: Corner,
}

ghost use Rattle.mesh_plane.specs.Plane.{side_of, doubled_area, TriangleHolds};
ghost use Rattle.mesh_plane.specs.Plane.{IsScale, IsTilePoint, IsOnTile, IsTileTri};

/// A coordinate at a scale.
fn scaled(scale: i64, n: i64) -> i64
    requires scale { IsScale scale }
    requires low { pos 0 ≤ℤ n }
    requires high { n ≤ℤ pos 32767 }
    ensures value { result ≡ scale *ℤ n }
    ensures low { pos 0 ≤ℤ result }
    ensures high { result ≤ℤ (pos 32767 *ℤ scale) }
{
    scale * n
}

/// A difference of coordinates times one at a scale.
fn product(a: i64, b: i64) -> i64
    requires a { unsigned_abs a ≤ 2 ^ 15 }
    requires b { unsigned_abs b ≤ 2 ^ 46 }
    ensures value { result ≡ a *ℤ b }
    ensures size { unsigned_abs result ≤ 2 ^ 61 }
{
    a * b
}

/// On which side of the line from `a` to `b` the point (u/scale, v/scale) lies: twice the area of the
/// triangle of the three, times the scale. It is above 0 to the left of the line, 0 on it and below 0 to
/// the right.
pub fn side(a: &Corner, b: &Corner, scale: i64, u: i64, v: i64) -> i128
    requires a { IsOnTile a.now }
    requires b { IsOnTile b.now }
    requires scale { IsScale scale }
    requires point { IsTilePoint scale u v }
    ensures value { result ≡ side_of a.now b.now scale u v }
    ensures size { unsigned_abs result ≤ 2 ^ 62 }
{
    let across = product(b.u - a.u, v - scaled(scale, a.v));
    let along = product(b.v - a.v, u - scaled(scale, a.u));
    i128::from(across - along)
}

/// Whether the point (u/scale, v/scale) lies on the line from `a` to `b` or to the left of it.
fn is_left(a: &Corner, b: &Corner, scale: i64, u: i64, v: i64) -> bool
    requires a { IsOnTile a.now }
    requires b { IsOnTile b.now }
    requires scale { IsScale scale }
    requires point { IsTilePoint scale u v }
    ensures { IsTrue result ↔ (pos 0 ≤ℤ side_of a.now b.now scale u v) }
{
    side(a, b, scale, u, v) >= 0
}

/// Whether the point (u/scale, v/scale) lies in the closed triangle.
pub fn within(tri: &Tri, scale: i64, u: i64, v: i64) -> bool
    requires tri { IsTileTri tri.now }
    requires scale { IsScale scale }
    requires point { IsTilePoint scale u v }
    ensures { IsTrue result ↔ TriangleHolds scale u v tri.now }
{
    is_left(&tri.a, &tri.b, scale, u, v)
        && is_left(&tri.b, &tri.c, scale, u, v)
        && is_left(&tri.c, &tri.a, scale, u, v)
}

/// Twice the area of a triangle: above 0 where its corners run counter-clockwise.
pub fn doubled(tri: &Tri) -> i64
    requires { IsTileTri tri.now }
    ensures value { result ≡ doubled_area tri.now }
    ensures size { unsigned_abs result ≤ 2 ^ 62 }
{
    let across = product(tri.b.u - tri.a.u, tri.c.v - tri.a.v);
    let along = product(tri.b.v - tri.a.v, tri.c.u - tri.a.u);
    across - along
}
