// A triangle's sweep over the posts of a window, column by column.
ghost use Rattle.std.specs.Prelude.{◌≡◌, ℕ, ℤ, pos, ◌*ℤ◌, ◌≤ℤ◌, ◌↔◌, ◌<◌, Some, IfOk};
ghost use Rattle.cell_mosaic.specs.Cells.{Cells};
ghost use Rattle.cell_mosaic.specs.Source.{Leaves};
ghost use Rattle.mesh_plane.specs.Plane.{TriangleHolds};
ghost use Rattle.mesh_plane.specs.Surface.{gap_under};
ghost use Rattle.lattice_sweep.specs.Axis.{point_of, Has};
ghost use Rattle.lattice_sweep.specs.Plane.{IsTerrainTri};
ghost use Rattle.lattice_sweep.specs.Sweep.{IsWindow, InColumn, InWindow, IsRaised};

use crate::plane::{lift_rise, pace, post_gap};
use crate::rows::held;
use crate::{Axis, area, lift_within};
use cell_mosaic::{PostSource, SourceFault};
use mesh_plane::Tri;
use terrain_base::{CellKey, Store};

/// Columns and rows of the key's cell, and where they lie on the tile.
#[derive(Clone, Copy, Debug, PartialEq, Eq)]
pub struct Window {
    pub key: CellKey,
    pub east: Axis,
    pub north: Axis,
}

// Raises the greatest gap so far by those of some rows of a column, all of them that the triangle holds. From a row to
// the next the plane rises by the same.
fn climb<P: PostSource, S: Store>(
    src: &mut P,
    store: &mut S,
    window: &Window,
    tri: &Tri,
    col: u16,
    rows: &Axis,
    worst: u64,
) -> Result<u64, SourceFault>
    requires tri { IsTerrainTri tri.now }
    requires window { IsWindow (P.shapes src.old) window.now }
    requires col { Has window.now.east col }
    requires rows { (i : ℕ) → Has rows.now i
        ↔ (Has window.now.north i × TriangleHolds (pos 10125) (point_of window.now.east col)
        (point_of window.now.north i) tri.now) }
    requires some { rows.now.from < rows.now.to }
    requires worst { pos worst ≤ℤ (pos 32000 *ℤ gap_under tri.now (pos 10125)) }
    ensures value { IfOk result (λ after. (told : Cells) → P.cells src.old (S.holds store.old) ≡ Some told
        → IsRaised (InColumn told window.now.key col tri.now (point_of window.now.east col) window.now.north
        window.now.north.to) worst after) }
    ensures size { IfOk result (λ after. pos after ≤ℤ (pos 32000 *ℤ gap_under tri.now (pos 10125))) }
    ensures leaves { Leaves P.cells P.shapes P.sure P.spoilt S.holds S.log S.faults
        src.old src.new store.old store.new result }
{
    let lowest = lift_within(tri, window.east.at(col), window.north.at(rows.from));
    let first = match lowest {
        Some(lift) => lift,
        None => return Ok(worst),
    };
    let rise = lift_rise(tri, pace(window.north.step));
    let area = area(tri);
    let mut lift = first;
    let mut most = worst;
    for row in rows.from..rows.to {
        let post = src.post(store, window.key, col, row)?;
        most = most.max(post_gap(lift, area, post));
        lift += rise;
    }
    Ok(most)
}

// Raises the greatest gap so far by those of one column. Only the posts that the triangle holds are read.
fn column<P: PostSource, S: Store>(
    src: &mut P,
    store: &mut S,
    window: &Window,
    tri: &Tri,
    col: u16,
    worst: u64,
) -> Result<u64, SourceFault>
    requires tri { IsTerrainTri tri.now }
    requires window { IsWindow (P.shapes src.old) window.now }
    requires col { Has window.now.east col }
    requires worst { pos worst ≤ℤ (pos 32000 *ℤ gap_under tri.now (pos 10125)) }
    ensures value { IfOk result (λ after. (told : Cells) → P.cells src.old (S.holds store.old) ≡ Some told
        → IsRaised (InColumn told window.now.key col tri.now (point_of window.now.east col) window.now.north
        window.now.north.to) worst after) }
    ensures size { IfOk result (λ after. pos after ≤ℤ (pos 32000 *ℤ gap_under tri.now (pos 10125))) }
    ensures leaves { Leaves P.cells P.shapes P.sure P.spoilt S.holds S.log S.faults
        src.old src.new store.old store.new result }
{
    if window.north.to <= window.north.from {
        return Ok(worst);
    }
    let rows = held(tri, window.east.at(col), &window.north);
    if rows.to <= rows.from {
        return Ok(worst);
    }
    let after = climb(src, store, window, tri, col, &rows, worst)?;
    Ok(after)
}

/// The greatest gap between the triangle's plane and the posts of the window that the triangle holds, times the area
/// at the scale: 0 where it holds none. Faults have the causes that a post's have.
pub fn sweep<P: PostSource, S: Store>(
    src: &mut P,
    store: &mut S,
    window: &Window,
    tri: &Tri,
) -> Result<u64, SourceFault>
    requires tri { IsTerrainTri tri.now }
    requires window { IsWindow (P.shapes src.old) window.now }
    ensures value { IfOk result (λ worst. (told : Cells) → P.cells src.old (S.holds store.old) ≡ Some told
        → IsRaised (InWindow told window.now.key tri.now window.now.east window.now.north window.now.east.to) 0 worst) }
    ensures size { IfOk result (λ worst. pos worst ≤ℤ (pos 32000 *ℤ gap_under tri.now (pos 10125))) }
    ensures leaves { Leaves P.cells P.shapes P.sure P.spoilt S.holds S.log S.faults
        src.old src.new store.old store.new result }
{
    let mut worst = 0;
    for col in window.east.from..window.east.to {
        worst = column(src, store, window, tri, col, worst)?;
    }
    Ok(worst)
}
