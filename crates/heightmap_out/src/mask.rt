// Which children a tile has.
ghost use Rattle.std.specs.Prelude.{◌≡◌, ◌≤◌, ◌<◌, ◌^◌};
ghost use Rattle.availability.specs.Existence.{exists_at};
ghost use Rattle.heightmap_out.specs.Mask.{bit_of, mask_of};

use availability::exists;
use terrain_base::{Summary, TileId};

// Whether there is a tile of this level, column and row, and it exists.
fn exists_at(summaries: &[Summary], cap: u8, z: u8, x: u32, y: u32) -> bool
    ensures { result ≡ exists_at cap summaries.now z y x }
{
    match TileId::of(z, x, y) {
        Some(tile) => exists(summaries, cap, tile),
        None => false,
    }
}

// The bit, where the tile of this level, column and row exists.
fn bit(summaries: &[Summary], cap: u8, z: u8, x: u32, y: u32, bit: u8) -> u8
    ensures value { result ≡ bit_of cap summaries.now z y x bit }
    ensures most { result ≤ bit }
{
    if exists_at(summaries, cap, z, x, y) {
        bit
    } else {
        0
    }
}

// The child tile mask: south-west 1, south-east 2, north-west 4, north-east 8.
#[tactic(auto, unfolding(crate::specs::Mask::mask_of))]
pub(crate) fn mask(summaries: &[Summary], cap: u8, tile: TileId) -> u8
    ensures { result ≡ mask_of cap summaries.now tile }
{
    let (z, x, y) = (tile.z + 1, 2 * tile.x, 2 * tile.y);
    bit(summaries, cap, z, x, y, 1)
        + bit(summaries, cap, z, x + 1, y, 2)
        + bit(summaries, cap, z, x, y + 1, 4)
        + bit(summaries, cap, z, x + 1, y + 1, 8)
}
