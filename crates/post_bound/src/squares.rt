// The posts of all cells of a square, and of a degree of latitude.
ghost use Rattle.std.specs.Prelude.{◌≡◌, ◌≤◌, ◌<◌, ◌*◌, ◌^◌, Some, IfOk, unsigned_abs};
ghost use Rattle.cell_mosaic.specs.Cells.{Cells};
ghost use Rattle.cell_mosaic.specs.Source.{Leaves};
ghost use Rattle.lattice_sweep.specs.Bound.{IsRaisedBound};
ghost use Rattle.tile_mesh.specs.Plane.{triangles_in};
ghost use Rattle.post_bound.specs.Squares.{GapAmong, InSquare, InDegree, InLatitude};
ghost use Rattle.post_bound.specs.Swept.{IsSwept};

use crate::degrees::{first_degree, last_degree};
use crate::window::one_cell;
use cell_mosaic::{PostSource, SourceFault};
use terrain_base::{CellKey, CellLevel, Square, Store, TileId};
use tile_mesh::TileMesh;

// Raises the bound so far by the posts of the square's cells of all levels, so many turns of the globe further.
fn one_square<P: PostSource, S: Store>(
    src: &mut P,
    store: &mut S,
    tile: TileId,
    mesh: &TileMesh,
    square: Square,
    turns: i64,
    bound: u32,
) -> Result<u32, SourceFault>
    requires deep { 6 ≤ tile.z }
    requires mesh { IsSwept mesh.now }
    requires turns { unsigned_abs turns ≤ 1 }
    requires bound { bound ≤ 32000 }
    ensures value { IfOk result (λ after. (told : Cells) → P.cells src.old (S.holds store.old) ≡ Some told
        → IsRaisedBound (GapAmong (InSquare square turns) told tile (triangles_in mesh.now)) bound after) }
    ensures few { IfOk result (λ after. after ≤ 32000) }
    ensures leaves { Leaves P.cells P.shapes P.sure P.spoilt S.holds S.log S.faults
        src.old src.new store.old store.new result }
{
    let finest = CellKey {
        square,
        level: CellLevel::Two,
    };
    let fine = one_cell(src, store, tile, mesh, finest, turns, bound)?;
    let middle = CellKey {
        square,
        level: CellLevel::One,
    };
    let both = one_cell(src, store, tile, mesh, middle, turns, fine)?;
    let coarsest = CellKey {
        square,
        level: CellLevel::Zero,
    };
    let all = one_cell(src, store, tile, mesh, coarsest, turns, both)?;
    Ok(all)
}

// Raises the bound so far by the posts of a degree of latitude in a degree of longitude. Degrees of longitude are
// counted from a turn of the globe west of 180 degrees west, so that no meridian is a case of its own.
fn one_degree<P: PostSource, S: Store>(
    src: &mut P,
    store: &mut S,
    tile: TileId,
    mesh: &TileMesh,
    lat: u32,
    degree: u32,
    bound: u32,
) -> Result<u32, SourceFault>
    requires deep { 6 ≤ tile.z }
    requires mesh { IsSwept mesh.now }
    requires lat { lat < 180 }
    requires degree { degree < 1080 }
    requires bound { bound ≤ 32000 }
    ensures value { IfOk result (λ after. (told : Cells) → P.cells src.old (S.holds store.old) ≡ Some told
        → IsRaisedBound (GapAmong (InDegree lat degree) told tile (triangles_in mesh.now)) bound after) }
    ensures few { IfOk result (λ after. after ≤ 32000) }
    ensures leaves { Leaves P.cells P.shapes P.sure P.spoilt S.holds S.log S.faults
        src.old src.new store.old store.new result }
{
    let square = match Square::of((degree % 360) as u16, lat as u16) {
        Some(square) => square,
        None => return Ok(bound),
    };
    let turns = i64::from(degree / 360) - 1;
    let after = one_square(src, store, tile, mesh, square, turns, bound)?;
    Ok(after)
}

// Raises the bound so far by the posts of a degree of latitude. Only those degrees of longitude are looked at that the
// tile's column meets.
pub(crate) fn one_latitude<P: PostSource, S: Store>(
    src: &mut P,
    store: &mut S,
    tile: TileId,
    mesh: &TileMesh,
    lat: u32,
    bound: u32,
) -> Result<u32, SourceFault>
    requires deep { 6 ≤ tile.z }
    requires mesh { IsSwept mesh.now }
    requires lat { lat < 180 }
    requires bound { bound ≤ 32000 }
    ensures value { IfOk result (λ after. (told : Cells) → P.cells src.old (S.holds store.old) ≡ Some told
        → IsRaisedBound (GapAmong (InLatitude lat) told tile (triangles_in mesh.now)) bound after) }
    ensures few { IfOk result (λ after. after ≤ 32000) }
    ensures leaves { Leaves P.cells P.shapes P.sure P.spoilt S.holds S.log S.faults
        src.old src.new store.old store.new result }
{
    let west = first_degree(tile.z, tile.x) + 359;
    let east = last_degree(tile.z, tile.x) + 361;
    let mut most = bound;
    for degree in west..east {
        most = one_degree(src, store, tile, mesh, lat, degree, most)?;
    }
    Ok(most)
}
