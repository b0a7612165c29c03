// The two files of a tile.
ghost use Rattle.std.specs.Prelude.{◌≡◌, Some, IfOk};
ghost use Rattle.terrain_base.specs.Work.{Ticked};
ghost use Rattle.cell_mosaic.specs.Cells.{Cells};
ghost use Rattle.cell_mosaic.specs.Summaries.{summaries_of};
ghost use Rattle.tile_file.specs.Files.{AreFilesOf};
ghost use Rattle.tile_file.specs.Leaving.{LeavesAllocating};

use crate::bound::bound;
use crate::mesh::mesh_over;
use crate::note::note;
use cell_mosaic::{PostSource, SourceFault};
use std::alloc::Global;
use terrain_base::{Params, Store, Summary, TileId, Work};
use tile_bytes::terrain;

/// The bytes of a tile's two files.
#[derive(Debug, Drop)]
pub struct TileFiles {
    pub terrain: Vec<u8>,
    pub note: Vec<u8>,
}

/// Makes the terrain and the note of a tile from the posts of a source, whose cells are these in short.
///
/// Counts one tile of work, whatever is answered. Changes nothing that the store holds and adds nothing to its log. A
/// sure source gives Ok or lacks memory; other faults have the causes that a post's have.
pub fn make_tile<P: PostSource, S: Store>(
    alloc: Global,
    source: &mut P,
    store: &mut S,
    summaries: &[Summary],
    params: &Params,
    tile: TileId,
    work: &mut Work,
) -> Result<TileFiles, SourceFault>
    ensures made { IfOk result (λ made. (told : Cells) → P.cells source.old (S.holds store.old) ≡ Some told
        → summaries.now ≡ summaries_of told → AreFilesOf params.now told tile made) }
    ensures leaves { LeavesAllocating P.cells P.shapes P.sure P.spoilt S.holds S.log S.faults
        source.old source.new store.old store.new result }
    ensures ticked { Ticked work.old work.new }
{
    work.tick();
    let mesh = mesh_over(alloc, source, store, params, tile)?;
    let bound = bound(source, store, summaries, tile, &mesh)?;
    let file = terrain(alloc, tile, &mesh)?;
    let note = note(alloc, bound, tile.z, &mesh, file.horizon)?;
    Ok(TileFiles {
        terrain: file.bytes,
        note,
    })
}
