// The grid lines of a tile, as meridians and parallels.
ghost use Rattle.std.specs.Prelude.{◌≡◌, IfOk};
ghost use Rattle.tile_bytes.specs.GridLines.{meridians_of, parallels_of};

use ecef_boxes::{Meridian, Parallel};
use std::alloc::Global;
use terrain_base::{NoMemory, TileId};
use tms_tree::tile_place;

/// The meridians of the tile's 67 columns, from the west.
pub fn meridians(alloc: Global, tile: TileId) -> Result<Vec<Meridian>, NoMemory>
    ensures { IfOk result (λ lines. lines.items ≡ meridians_of tile 67) }
{
    let mut lines = Vec::new(alloc);
    for i in 0..67u8 {
        let place = tile_place(tile, i, 0);
        lines.push(Meridian::at(place.p, place.d))?;
    }
    Ok(lines)
}

/// The parallels of the tile's 67 rows, from the south.
pub fn parallels(alloc: Global, tile: TileId) -> Result<Vec<Parallel>, NoMemory>
    ensures { IfOk result (λ lines. lines.items ≡ parallels_of tile 67) }
{
    let mut lines = Vec::new(alloc);
    for j in 0..67u8 {
        let place = tile_place(tile, 0, j);
        lines.push(Parallel::at(place.q, place.d))?;
    }
    Ok(lines)
}
