// The error bound of a tile.
ghost use Rattle.std.specs.Prelude.{◌≡◌, Some, IfOk};
ghost use Rattle.cell_mosaic.specs.Cells.{Cells};
ghost use Rattle.cell_mosaic.specs.Source.{Leaves};
ghost use Rattle.cell_mosaic.specs.Summaries.{summaries_of};
ghost use Rattle.post_bound.specs.Rule.{bound_of};
ghost use Rattle.tile_mesh.specs.Mesh.{IsMeshAt};

use cell_mosaic::{PostSource, SourceFault};
use post_bound::{post_bound, span_bound};
use terrain_base::{Store, Summary, TileId};
use tile_mesh::TileMesh;

// Below this level a tile has too many posts to look at each.
const FIRST_LEVEL_OF_POSTS: u8 = 8;

/// The error bound that the tile's note prints, in metres: by the posts at levels 8 and more, by the cells' extremes
/// below.
pub fn bound<P: PostSource, S: Store>(
    source: &mut P,
    store: &mut S,
    summaries: &[Summary],
    tile: TileId,
    mesh: &TileMesh,
) -> Result<u32, SourceFault>
    requires { IsMeshAt tile.z mesh.now }
    ensures value { IfOk result (λ bound. (told : Cells) → P.cells source.old (S.holds store.old) ≡ Some told
        → summaries.now ≡ summaries_of told → bound ≡ bound_of told tile mesh.now) }
    ensures leaves { Leaves P.cells P.shapes P.sure P.spoilt S.holds S.log S.faults
        source.old source.new store.old store.new result }
{
    if tile.z < FIRST_LEVEL_OF_POSTS {
        Ok(span_bound(summaries, tile, mesh))
    } else {
        post_bound(source, store, tile, mesh)
    }
}
