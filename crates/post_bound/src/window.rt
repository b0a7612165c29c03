// The posts of one cell.
ghost use Rattle.std.specs.Prelude.{◌≡◌, ◌≤◌, ◌&&◌, nat_lt, Some, IfOk, length, unsigned_abs};
ghost use Rattle.std.specs.FinSet as set;
ghost use Rattle.cell_mosaic.specs.Cells.{Cells};
ghost use Rattle.cell_mosaic.specs.Source.{Leaves};
ghost use Rattle.lattice_sweep.specs.Sweep.{IsWindow};
ghost use Rattle.lattice_sweep.specs.Bound.{IsRaisedBound};
ghost use Rattle.tile_mesh.specs.Plane.{triangles_in};
ghost use Rattle.post_bound.specs.Window.{OfTriangles, WindowGap};
ghost use Rattle.post_bound.specs.Swept.{IsSwept};

use crate::axes::{columns_over, rows_over};
use crate::triangles::triangle;
use cell_mosaic::{PostSource, SourceFault};
use lattice_sweep::{Axis, Window, raise};
use terrain_base::{CellKey, CellLevel, Store, TileId};
use tile_mesh::TileMesh;

// So far reaches a tile at the scale.
const SIDE: i64 = 331_765_875;

// Whether the key has a cell.
fn has_cell<P: PostSource>(src: &P, key: CellKey) -> bool
    ensures { result ≡ set.contains (P.shapes src.now) key }
{
    let square = key.square;
    let first = match key.level {
        CellLevel::Two => src.shape(square),
        CellLevel::One => src.coarser(CellKey {
            square,
            level: CellLevel::Two,
        }),
        CellLevel::Zero => src.coarser(CellKey {
            square,
            level: CellLevel::One,
        }),
    };
    match first {
        Some(level) => level == key.level,
        None => false,
    }
}

// Whether both have a number that counts.
fn have_posts(east: &Axis, north: &Axis) -> bool
    ensures { result ≡ (nat_lt east.now.from east.now.to && nat_lt north.now.from north.now.to) }
{
    east.from < east.to && north.from < north.to
}

// Raises the bound so far by the posts of the window that each triangle holds.
fn every_triangle<P: PostSource, S: Store>(
    src: &mut P,
    store: &mut S,
    mesh: &TileMesh,
    window: &Window,
    bound: u32,
) -> Result<u32, SourceFault>
    requires mesh { IsSwept mesh.now }
    requires window { IsWindow (P.shapes src.old) window.now }
    requires bound { bound ≤ 32000 }
    ensures value { IfOk result (λ after. (told : Cells) → P.cells src.old (S.holds store.old) ≡ Some told
        → IsRaisedBound (OfTriangles told window.now.key (triangles_in mesh.now) window.now.east window.now.north
        (length (triangles_in mesh.now))) bound after) }
    ensures few { IfOk result (λ after. after ≤ 32000) }
    ensures leaves { Leaves P.cells P.shapes P.sure P.spoilt S.holds S.log S.faults
        src.old src.new store.old store.new result }
{
    let mut most = bound;
    for numbers in mesh.triangles() {
        let tri = triangle(mesh.points(), *numbers);
        most = raise(src, store, window, &tri, most)?;
    }
    Ok(most)
}

// Raises the bound so far by the posts of the key's cell, so many turns of the globe further.
pub(crate) fn one_cell<P: PostSource, S: Store>(
    src: &mut P,
    store: &mut S,
    tile: TileId,
    mesh: &TileMesh,
    key: CellKey,
    turns: i64,
    bound: u32,
) -> Result<u32, SourceFault>
    requires deep { 6 ≤ tile.z }
    requires mesh { IsSwept mesh.now }
    requires turns { unsigned_abs turns ≤ 1 }
    requires bound { bound ≤ 32000 }
    ensures value { IfOk result (λ after. (told : Cells) → P.cells src.old (S.holds store.old) ≡ Some told
        → IsRaisedBound (WindowGap told tile (triangles_in mesh.now) key turns) bound after) }
    ensures few { IfOk result (λ after. after ≤ 32000) }
    ensures leaves { Leaves P.cells P.shapes P.sure P.spoilt S.holds S.log S.faults
        src.old src.new store.old store.new result }
{
    if !has_cell(src, key) {
        return Ok(bound);
    }
    let east = columns_over(tile, key, turns).cut(0, SIDE);
    let north = rows_over(tile, key).cut(0, SIDE);
    // Many a cell that touches a tile has no post on it.
    if !have_posts(&east, &north) {
        return Ok(bound);
    }
    let window = Window { key, east, north };
    let after = every_triangle(src, store, mesh, &window, bound)?;
    Ok(after)
}
