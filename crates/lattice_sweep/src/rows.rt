// The rows of one column that a triangle holds.
ghost use Rattle.std.specs.Prelude.{◌↔◌, ℕ, ℤ, pos, ◌+ℤ◌, ◌-ℤ◌, ◌*ℤ◌, ◌≤ℤ◌, ◌^◌, ◌≤◌, ◌<◌, unsigned_abs};
ghost use Rattle.mesh_plane.specs.Plane.{TriangleHolds};
ghost use Rattle.lattice_sweep.specs.Axis.{point_of, Has, IsOnSide};
ghost use Rattle.lattice_sweep.specs.Plane.{IsTerrainTri};

use crate::Axis;
use crate::axis::before;
use crate::plane::{pace, side, side_rise};
use mesh_plane::Tri;

// The numbers of an axis from one on.
fn since(axis: &Axis, least: u64) -> Axis
    ensures numbers { (i : ℕ) → Has result i ↔ (Has axis.now i × (least ≤ i)) }
    ensures from { axis.now.from ≤ result.from }
{
    let from = least.min(axis.to as u64).max(axis.from as u64);
    Axis {
        first: axis.first,
        step: axis.step,
        from: from as u16,
        to: axis.to,
    }
}

// The numbers of an axis before one.
fn until(axis: &Axis, end: u64) -> Axis
    ensures numbers { (i : ℕ) → Has result i ↔ (Has axis.now i × (i < end)) }
    ensures from { axis.now.from ≤ result.from }
{
    let to = end.min(axis.to as u64);
    Axis {
        first: axis.first,
        step: axis.step,
        from: axis.from,
        to: to as u16,
    }
}

// The rows at which a linear form is not below 0, that has the value `start` at the row `base` and changes by `rise`
// with each row. A rising form is so from a row on, a falling one before a row: each is found by one division.
fn kept(rows: &Axis, base: u16, start: i64, rise: i64) -> Axis
    requires base { base ≤ rows.now.from }
    requires start { unsigned_abs start ≤ 2 ^ 45 }
    requires rise { unsigned_abs rise ≤ 2 ^ 44 }
    ensures rows { (i : ℕ) → Has result i ↔
        (Has rows.now i × (pos 0 ≤ℤ (start +ℤ rise *ℤ (pos i -ℤ pos base)))) }
    ensures from { base ≤ result.from }
{
    if rise > 0 {
        return since(rows, u64::from(base) + before(start, rise, 0));
    }
    if rise < 0 {
        return until(rows, u64::from(base) + before(-start, -rise, 1));
    }
    if start < 0 {
        return until(rows, 0);
    }
    *rows
}

// The rows of an axis at which the triangle holds the column's point. Each of its sides is a linear form in the row.
pub(crate) fn held(tri: &Tri, u: i64, north: &Axis) -> Axis
    requires tri { IsTerrainTri tri.now }
    requires west { pos 0 ≤ℤ u }
    requires east { u ≤ℤ pos 331765875 }
    requires north { IsOnSide north.now }
    requires some { north.now.from < north.now.to }
    ensures { (i : ℕ) → Has result i ↔ (Has north.now i × TriangleHolds (pos 10125) u (point_of north.now i) tri.now) }
{
    let base = north.from;
    let v = north.at(base);
    let step = pace(north.step);
    let ab = side(&tri.a, &tri.b, u, v);
    let bc = side(&tri.b, &tri.c, u, v);
    let ca = side(&tri.c, &tri.a, u, v);
    let by_ab = kept(north, base, ab, side_rise(&tri.a, &tri.b, step));
    let by_bc = kept(&by_ab, base, bc, side_rise(&tri.b, &tri.c, step));
    kept(&by_bc, base, ca, side_rise(&tri.c, &tri.a, step))
}
