// Which tiles exist.
ghost use Rattle.std.specs.Prelude.{◌≡◌, ◌↔◌, IsTrue};
ghost use Rattle.std.specs.List.{list_any};
ghost use Rattle.availability.specs.Existence.{makes_of, exists_of, Exists};

use terrain_base::{Summary, TileId, depth};
use tms_tree::overlaps;

// The cell makes this tile: its depth, cut at the cap, is at least the tile's level, and their insides share
// a point.
fn makes(cap: u8, tile: TileId, cell: Summary) -> bool
    ensures { result ≡ makes_of cap tile cell }
{
    tile.z <= depth(cell.level, cap) && overlaps(tile, cell.square)
}

// One of the cells makes the tile.
fn is_made(cells: &[Summary], cap: u8, tile: TileId) -> bool
    ensures { result ≡ list_any (makes_of cap tile) cells.now }
{
    cells.iter().any(|cell| makes(cap, tile, *cell))
}

/// Whether the tile exists in a database of these cells with this deepest level. Both tiles of level 0 do.
/// Another tile exists where a cell whose depth, cut at `cap`, is at least the tile's level has a square whose
/// inside shares a point with the tile's. The order of the cells is free.
#[tactic(auto, unfolding(crate::specs::Existence::exists_of))]
pub fn exists(summaries: &[Summary], cap: u8, tile: TileId) -> bool
    ensures value { result ≡ exists_of cap summaries.now tile }
    ensures meaning { IsTrue result ↔ Exists cap summaries.now tile }
{
    tile.z == 0 || is_made(summaries, cap, tile)
}
