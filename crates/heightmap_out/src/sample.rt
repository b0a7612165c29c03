// The samples of a tile.
ghost use Rattle.std.specs.Prelude.{◌≡◌, ◌≤◌, Some, length, OnOk};
ghost use Rattle.tms_tree.specs.Place.{IsPlace};
ghost use Rattle.cell_mosaic.specs.Cells.{Cells};
ghost use Rattle.cell_mosaic.specs.Source.{Leaves};
ghost use Rattle.heightmap_out.specs.Sample.{place_at, number_of, samples_of};

use cell_mosaic::{PostSource, SourceFault};
use resample::height;
use terrain_base::{Params, Store, TileId};
use tms_tree::Place;

/// How many samples a tile has, on 65 lines of 65 each.
pub(crate) const SAMPLES: u16 = 4225;

// The place of the sample of a line, from the north, and a place on it, from the west.
fn sample_place(tile: TileId, line: u8, place: u8) -> Place
    requires line { line ≤ 64 }
    requires place { place ≤ 64 }
    ensures value { result ≡ place_at tile line place }
    ensures place { IsPlace result }
{
    Place {
        p: 64 * tile.x as u64 + place as u64,
        q: 64 * tile.y as u64 + 64 - line as u64,
        d: 64 << tile.z,
    }
}

// The fifths of a metre above -1000 metres, of a height that is cut at both ends of what 16 bits can say.
#[tactic(auto, unfolding(crate::specs::Sample::number_of))]
fn number(metres: i16) -> u16
    ensures { result ≡ number_of metres }
{
    let above = 1000 + metres.max(-1000).min(12_107);
    5 * above.unsigned_abs()
}

// Sets the samples, line by line from the north.
pub(crate) fn fill_samples<P: PostSource, S: Store>(
    src: &mut P,
    store: &mut S,
    params: &Params,
    tile: TileId,
    out: &mut [u16],
) -> Result<(), SourceFault>
    requires { length out.old ≡ 4225 }
    ensures value { OnOk result ((told : Cells) → P.cells src.old (S.holds store.old) ≡ Some told
        → out.new ≡ samples_of params.now.fill told tile) }
    ensures long { length out.new ≡ 4225 }
    ensures leaves { Leaves P.cells P.shapes P.sure P.spoilt S.holds S.log S.faults
        src.old src.new store.old store.new result }
{
    for k in 0..SAMPLES {
        let place = sample_place(tile, (k / 65) as u8, (k % 65) as u8);
        let metres = height(src, store, params.fill, place)?;
        out[k as usize] = number(metres);
    }
    Ok(())
}
