// The mesh of a tile over the cells of a source.
ghost use Rattle.std.specs.Prelude.{◌≡◌, Some, IfOk};
ghost use Rattle.cell_mosaic.specs.Cells.{Cells};
ghost use Rattle.tile_mesh.specs.Mesh.{IsMeshAt};
ghost use Rattle.tile_rule.specs.Tile.{mesh_of_tile};
ghost use Rattle.tile_file.specs.Leaving.{LeavesAllocating};

use cell_mosaic::{PostSource, SourceFault};
use resample::tile_grid;
use std::alloc::Global;
use terrain_base::{Grid, Params, Store, TileId};
use tile_mesh::{TileMesh, mesh_of};

/// The mesh of a tile over the heights that a source's cells, or else the fill, give its grid points.
pub fn mesh_over<P: PostSource, S: Store>(
    alloc: Global,
    source: &mut P,
    store: &mut S,
    params: &Params,
    tile: TileId,
) -> Result<TileMesh, SourceFault>
    ensures value { IfOk result (λ mesh. (told : Cells) → P.cells source.old (S.holds store.old) ≡ Some told
        → mesh ≡ mesh_of_tile params.now told tile) }
    ensures mesh { IfOk result (IsMeshAt tile.z) }
    ensures leaves { LeavesAllocating P.cells P.shapes P.sure P.spoilt S.holds S.log S.faults
        source.old source.new store.old store.new result }
{
    let mut grid = Grid::new(alloc)?;
    tile_grid(source, store, params.fill, tile, &mut grid)?;
    let mesh = mesh_of(alloc, &grid, tile.z)?;
    Ok(mesh)
}
