// A tile as a heightmap.
ghost use Rattle.std.specs.Prelude.{◌≡◌, ◌+◌, ◌*◌, Some, length, IfOk, IfErr, IsTrue};
ghost use Rattle.cell_mosaic.specs.Cells.{Cells};
ghost use Rattle.cell_mosaic.specs.Source.{FaultHasCause, Keeps, Marks, TroubleIsShown};
ghost use Rattle.cell_mosaic.specs.Summaries.{summaries_of};
ghost use Rattle.cell_mosaic.specs.declared.fault.SourceFault.TheVariants.{NoMemory as NoMemoryLeft};
ghost use Rattle.heightmap_out.specs.Tile.{heightmap_text, heightmap_of};

use crate::mask::mask;
use crate::sample::{SAMPLES, fill_samples};
use cell_mosaic::{PostSource, SourceFault};
use std::alloc::Global;
use terrain_base::{NoMemory, Params, Store, Summary, TileId};

// Room for the samples.
fn room(alloc: Global) -> Result<Vec<u16>, NoMemory>
    ensures { IfOk result (λ samples. length samples.items ≡ 4225) }
{
    Ok(vec![in alloc; 0; SAMPLES as usize]?)
}

// The bytes of samples, a child tile mask and the water mask of land.
#[tactic(auto, unfolding(crate::specs::Tile::heightmap_text))]
fn text(alloc: Global, samples: &[u16], mask: u8) -> Result<Vec<u8>, NoMemory>
    requires { length samples.now ≡ 4225 }
    ensures { IfOk result (λ bytes. bytes.items ≡ heightmap_text samples.now mask) }
{
    let mut bytes = Vec::with_capacity(alloc, 2 * samples.len() + 2)?;
    for sample in samples {
        bytes.extend_from_slice(&sample.to_le_bytes())?;
    }
    bytes.push(mask)?;
    // Whether the tile is land or water is not known.
    bytes.push(0)?;
    Ok(bytes)
}

/// The bytes of a tile in the format heightmap-1.0, over the posts of a source whose cells are these in short: 65
/// lines of 65 samples from the north-west corner, in fifths of a metre above -1000 metres and cut at -1000 and 12107
/// metres, the bits of the children that exist, and one byte of water mask, which says land.
///
/// Changes nothing that the store holds and adds nothing to its log. A sure source gives Ok or lacks memory; other
/// faults have the causes that a post's have.
pub fn heightmap<P: PostSource, S: Store>(
    alloc: Global,
    src: &mut P,
    store: &mut S,
    summaries: &[Summary],
    params: &Params,
    tile: TileId,
) -> Result<Vec<u8>, SourceFault>
    ensures value { IfOk result (λ bytes. (told : Cells) → P.cells src.old (S.holds store.old) ≡ Some told
        → summaries.now ≡ summaries_of told → bytes.items ≡ heightmap_of params.now told tile) }
    ensures long { IfOk result (λ bytes. length bytes.items ≡ 8452) }
    ensures sure { IsTrue (P.sure src.old) → IfErr result (λ fault. fault ≡ NoMemoryLeft) }
    ensures shown { TroubleIsShown (P.shapes src.old) (S.holds store.old) (P.cells src.old (S.holds store.old)) result }
    ensures cause { FaultHasCause (S.faults store.old) (S.faults store.new) result }
    ensures keeps { Keeps P.cells P.shapes P.sure src.old src.new
        (S.holds store.old) (S.holds store.new) (S.log store.old) (S.log store.new) }
    ensures spoilt { Marks (P.spoilt src.old) (P.spoilt src.new) result }
{
    let mut samples = room(alloc)?;
    fill_samples(src, store, params, tile, &mut samples)?;
    let bytes = text(alloc, &samples, mask(summaries, params.cap, tile))?;
    Ok(bytes)
}
