// A triangle's part in the bound.
ghost use Rattle.std.specs.Prelude.{◌≡◌, ℤ, pos, ◌*ℤ◌, ◌≤ℤ◌, ◌≤◌, Some, IfOk};
ghost use Rattle.std.specs.Int.{int_min, int_max};
ghost use Rattle.cell_mosaic.specs.Cells.{Cells};
ghost use Rattle.cell_mosaic.specs.Source.{Leaves};
ghost use Rattle.lattice_sweep.specs.Plane.{IsTerrainTri};
ghost use Rattle.lattice_sweep.specs.Sweep.{IsWindow};
ghost use Rattle.lattice_sweep.specs.Bound.{GapIn, IsRaisedBound, IsCoordinate};

use crate::plane::scaled;
use crate::{Window, area, sweep};
use cell_mosaic::{PostSource, SourceFault};
use mesh_plane::Tri;
use terrain_base::Store;

// The least of a triangle's coordinates, at the scale.
fn least(a: i64, b: i64, c: i64) -> i64
    requires a { IsCoordinate a }
    requires b { IsCoordinate b }
    requires c { IsCoordinate c }
    ensures value { result ≡ pos 10125 *ℤ int_min (int_min a b) c }
    ensures low { pos 0 ≤ℤ result }
    ensures high { result ≤ℤ pos 331765875 }
{
    scaled(a.min(b).min(c))
}

// The greatest of a triangle's coordinates, at the scale.
fn greatest(a: i64, b: i64, c: i64) -> i64
    requires a { IsCoordinate a }
    requires b { IsCoordinate b }
    requires c { IsCoordinate c }
    ensures value { result ≡ pos 10125 *ℤ int_max (int_max a b) c }
    ensures low { pos 0 ≤ℤ result }
    ensures high { result ≤ℤ pos 331765875 }
{
    scaled(a.max(b).max(c))
}

/// Raises the bound so far by the posts of the window that the triangle holds: to the least whole number of metres that
/// is at least the bound and at least each gap. Faults have the causes that a post's have.
pub fn raise<P: PostSource, S: Store>(
    src: &mut P,
    store: &mut S,
    window: &Window,
    tri: &Tri,
    bound: u32,
) -> Result<u32, SourceFault>
    requires tri { IsTerrainTri tri.now }
    requires window { IsWindow (P.shapes src.old) window.now }
    requires bound { bound ≤ 32000 }
    ensures value { IfOk result (λ after. (told : Cells) → P.cells src.old (S.holds store.old) ≡ Some told
        → IsRaisedBound (GapIn told window.now.key tri.now window.now.east window.now.north) bound after) }
    ensures few { IfOk result (λ after. after ≤ 32000) }
    ensures leaves { Leaves P.cells P.shapes P.sure P.spoilt S.holds S.log S.faults
        src.old src.new store.old store.new result }
{
    // Outside of the box of its corners the triangle holds nothing.
    let west = least(tri.a.u, tri.b.u, tri.c.u);
    let east = greatest(tri.a.u, tri.b.u, tri.c.u);
    let south = least(tri.a.v, tri.b.v, tri.c.v);
    let north = greatest(tri.a.v, tri.b.v, tri.c.v);
    let columns = window.east.cut(west, east);
    let rows = window.north.cut(south, north);
    let boxed = Window {
        key: window.key,
        east: columns,
        north: rows,
    };
    let worst = sweep(src, store, &boxed, tri)?;
    // A product tells most triangles apart that do not raise the bound, and costs less than the quotient.
    let area = area(tri) as u64;
    if worst <= u64::from(bound) * area {
        return Ok(bound);
    }
    Ok(worst.div_ceil(area) as u32)
}
