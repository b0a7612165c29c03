// The bound at posts.
ghost use Rattle.std.specs.Prelude.{◌≡◌, ◌≤◌, Some, IfOk};
ghost use Rattle.cell_mosaic.specs.Cells.{Cells};
ghost use Rattle.cell_mosaic.specs.Source.{Leaves, GivesTold};
ghost use Rattle.tile_mesh.specs.Plane.{triangles_in};
ghost use Rattle.post_bound.specs.Bound.{IsPostBound, post_bound_of};
ghost use Rattle.tile_mesh.specs.Mesh.{IsMeshAt};

use crate::degrees::{first_degree, last_degree};
use crate::squares::one_latitude;
use cell_mosaic::{PostSource, SourceFault};
use terrain_base::{Store, TileId};
use tile_mesh::TileMesh;

/// The error bound of a tile of level 8 to 14 at the posts of all cells, in metres from 0 to 32000: the least whole
/// number that is at least the difference of the mesh's surface and each post in the closed tile that is not void,
/// longitudes modulo 360 degrees. 0 where there is no such post. Takes no memory. A sure source always gives Ok;
/// faults have the causes that a post's have.
pub fn post_bound<P: PostSource, S: Store>(
    src: &mut P,
    store: &mut S,
    tile: TileId,
    mesh: &TileMesh,
) -> Result<u32, SourceFault>
    requires deep { 8 ≤ tile.z }
    requires mesh { IsMeshAt tile.z mesh.now }
    ensures value { IfOk result (λ bound. (told : Cells) → P.cells src.old (S.holds store.old) ≡ Some told
        → IsPostBound told tile (triangles_in mesh.now) bound) }
    ensures number { GivesTold (P.cells src.old (S.holds store.old)) (λ told. post_bound_of told tile mesh.now) result }
    ensures few { IfOk result (λ bound. bound ≤ 32000) }
    ensures leaves { Leaves P.cells P.shapes P.sure P.spoilt S.holds S.log S.faults
        src.old src.new store.old store.new result }
{
    let south = first_degree(tile.z, tile.y).saturating_sub(1);
    let north = (last_degree(tile.z, tile.y) + 1).min(180);
    let mut bound = 0;
    for lat in south..north {
        bound = one_latitude(src, store, tile, mesh, lat, bound)?;
    }
    Ok(bound)
}
