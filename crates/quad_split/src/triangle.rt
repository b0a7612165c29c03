//! Whether a triangle over grid points follows the heights of the grid.

ghost use Rattle.std.specs.Prelude.{◌≡◌, pos, ◌+◌, ◌+ℤ◌, ◌-ℤ◌, ◌*ℤ◌, ◌^◌, ◌≤◌, int_le, unsigned_abs};
ghost use Rattle.terrain_base.specs.Grid.{height_in, line_position};
ghost use Rattle.terrain_base.specs.Height.{IsHeight};
ghost use Rattle.mesh_plane.specs.Plane.{IsOnTile, IsTileTri, IsCounterClockwise, side_of};
ghost use Rattle.mesh_plane.specs.Surface.{gap_under, size_of};
ghost use Rattle.quad_split.specs.Fits.{follows_at, follows_row, follows};
ghost use Rattle.quad_split.specs.Window.{AreHeights, IsInWindow, IsOnGrid, IsTriOf, IsWindow, corner_at, tri_at};

use mesh_plane::{Corner, Tri, doubled, side};
use terrain_base::{Grid, grid_line};

/// A grid point: its column from the west and its row from the south.
#[derive(Clone, Copy, Debug, PartialEq, Eq)]
pub(crate) struct GridPoint {
    pub(crate) i: u8,
    pub(crate) j: u8,
}

/// A rectangle of the grid, by its outer columns and rows.
#[derive(Clone, Copy, Debug, PartialEq, Eq)]
pub(crate) struct Window {
    pub(crate) west: u8,
    pub(crate) east: u8,
    pub(crate) south: u8,
    pub(crate) north: u8,
}

/// The grid point on the tile, at its height.
fn corner(grid: &Grid, point: GridPoint) -> Corner
    requires { IsOnGrid point }
    ensures value { result ≡ corner_at grid.now point }
    ensures height { IsHeight (height_in grid.now point.i point.j) }
{
    Corner {
        u: grid_line(point.i) as i64,
        v: grid_line(point.j) as i64,
        h: grid.get(point.i, point.j) as i32,
    }
}

/// The least window that has all three grid points.
fn window_of(a: GridPoint, b: GridPoint, c: GridPoint) -> Window
    requires a { IsOnGrid a }
    requires b { IsOnGrid b }
    requires c { IsOnGrid c }
    ensures window { IsWindow result }
    ensures a { IsInWindow result a }
    ensures b { IsInWindow result b }
    ensures c { IsInWindow result c }
{
    Window {
        west: a.i.min(b.i).min(c.i),
        east: a.i.max(b.i).max(c.i),
        south: a.j.min(b.j).min(c.j),
        north: a.j.max(b.j).max(c.j),
    }
}

/// A grid line's place in tile units.
fn line(index: u8) -> i64
    requires { index ≤ 66 }
    ensures value { result ≡ pos (line_position index) }
    ensures within { line_position index ≤ 32767 }
{
    grid_line(index) as i64
}

/// On which side of the line from `a` to `b` the grid point lies, as `mesh_plane::side` says it.
fn turn(a: &Corner, b: &Corner, i: u8, j: u8) -> i64
    requires a { IsOnTile a.now }
    requires b { IsOnTile b.now }
    requires i { i ≤ 66 }
    requires j { j ≤ 66 }
    ensures value { result ≡ side_of a.now b.now (pos 1) (pos (line_position i)) (pos (line_position j)) }
    ensures size { unsigned_abs result ≤ 2 ^ 31 }
{
    side(a, b, 1, line(i), line(j)) as i64
}

/// A height times a side or an area.
fn weighted(metres: i32, n: i64) -> i64
    requires metres { unsigned_abs metres ≤ 16000 }
    requires n { unsigned_abs n ≤ 2 ^ 32 }
    ensures value { result ≡ metres *ℤ n }
    ensures size { unsigned_abs result ≤ 2 ^ 46 }
{
    i64::from(metres) * n
}

/// A tolerance times an area.
fn room(tol: u16, area: i64) -> i64
    requires { unsigned_abs area ≤ 2 ^ 32 }
    ensures value { result ≡ pos tol *ℤ area }
    ensures size { unsigned_abs result ≤ 2 ^ 48 }
{
    i64::from(tol) * area
}

/// The area that the heights of a triangle's plane are divided by.
fn area(tri: &Tri) -> i64
    requires { IsTileTri tri.now }
    ensures value { result ≡ gap_under tri.now (pos 1) }
    ensures size { unsigned_abs result ≤ 2 ^ 32 }
{
    doubled(tri)
}

/// The height of the triangle's plane at a point with these sides, times the area.
fn lift(tri: &Tri, ab: i64, bc: i64, ca: i64) -> i64
    requires heights { AreHeights tri.now }
    requires ab { unsigned_abs ab ≤ 2 ^ 31 }
    requires bc { unsigned_abs bc ≤ 2 ^ 31 }
    requires ca { unsigned_abs ca ≤ 2 ^ 31 }
    ensures value { result ≡ (tri.now.a.h *ℤ bc +ℤ tri.now.b.h *ℤ ca) +ℤ tri.now.c.h *ℤ ab }
    ensures size { unsigned_abs result ≤ 2 ^ 48 }
{
    let a = weighted(tri.a.h, bc);
    let b = weighted(tri.b.h, ca);
    let c = weighted(tri.c.h, ab);
    a + b + c
}

/// Whether a height is within the tolerance of the triangle's plane at a point where the plane has this lift.
fn is_near(tri: &Tri, tol: u16, lift: i64, metres: i32) -> bool
    requires tile { IsTileTri tri.now }
    requires lift { unsigned_abs lift ≤ 2 ^ 48 }
    requires metres { unsigned_abs metres ≤ 16000 }
    ensures { result ≡ int_le (size_of (lift -ℤ metres *ℤ gap_under tri.now (pos 1)))
        (pos tol *ℤ gap_under tri.now (pos 1)) }
{
    let under = area(tri);
    let difference = lift - weighted(metres, under);
    difference.abs() <= room(tol, under)
}

/// Whether the triangle doesn't hold the grid point, or its plane is within the tolerance of the height there.
fn follows_point(grid: &Grid, tol: u16, tri: &Tri, i: u8, j: u8) -> bool
    requires tile { IsTileTri tri.now }
    requires heights { AreHeights tri.now }
    requires i { i ≤ 66 }
    requires j { j ≤ 66 }
    ensures { result ≡ follows_at grid.now tol tri.now i j }
{
    let ab = turn(&tri.a, &tri.b, i, j);
    if ab < 0 {
        return true;
    }
    let bc = turn(&tri.b, &tri.c, i, j);
    if bc < 0 {
        return true;
    }
    let ca = turn(&tri.c, &tri.a, i, j);
    if ca < 0 {
        return true;
    }
    is_near(tri, tol, lift(tri, ab, bc, ca), grid.get(i, j) as i32)
}

/// Whether it is so at `n` grid points of the row `j` from column `i` on.
fn follows_points(grid: &Grid, tol: u16, tri: &Tri, i: u8, j: u8, n: u8) -> bool
    requires tile { IsTileTri tri.now }
    requires heights { AreHeights tri.now }
    requires i { i + n ≤ 67 }
    requires j { j ≤ 66 }
    ensures { result ≡ follows_row grid.now tol tri.now i j n }
{
    for k in i..i + n {
        if !follows_point(grid, tol, tri, k, j) {
            return false;
        }
    }
    true
}

/// Whether it is so at all grid points: those outside the window aren't in the triangle.
fn follows_window(grid: &Grid, tol: u16, window: Window, tri: &Tri) -> bool
    requires window { IsWindow window }
    requires tri { IsTriOf window tri.now }
    ensures { result ≡ follows grid.now tol tri.now }
{
    let across = window.east + 1 - window.west;
    for j in window.south..window.north + 1 {
        if !follows_points(grid, tol, tri, window.west, j, across) {
            return false;
        }
    }
    true
}

/// Whether the triangle's plane is within the tolerance of the height at each grid point that it holds.
pub(crate) fn triangle_follows(
    grid: &Grid,
    tol: u16,
    a: GridPoint,
    b: GridPoint,
    c: GridPoint,
) -> bool
    requires a { IsOnGrid a }
    requires b { IsOnGrid b }
    requires c { IsOnGrid c }
    requires counter_clockwise { IsCounterClockwise (tri_at grid.now a b c) }
    ensures { result ≡ follows grid.now tol (tri_at grid.now a b c) }
{
    let tri = Tri {
        a: corner(grid, a),
        b: corner(grid, b),
        c: corner(grid, c),
    };
    follows_window(grid, tol, window_of(a, b, c), &tri)
}

/// Whether the triangle of three grid points doesn't hold the grid point `at`, or its plane is within the tolerance of
/// the height there.
pub(crate) fn point_follows(
    grid: &Grid,
    tol: u16,
    a: GridPoint,
    b: GridPoint,
    c: GridPoint,
    at: GridPoint,
) -> bool
    requires a { IsOnGrid a }
    requires b { IsOnGrid b }
    requires c { IsOnGrid c }
    requires at { IsOnGrid at }
    ensures { result ≡ follows_at grid.now tol (tri_at grid.now a b c) at.i at.j }
{
    let tri = Tri {
        a: corner(grid, a),
        b: corner(grid, b),
        c: corner(grid, c),
    };
    follows_point(grid, tol, &tri, at.i, at.j)
}
