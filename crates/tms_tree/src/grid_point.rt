// The places of a tile's grid points.
ghost use Rattle.std.specs.Prelude.{◌≡◌, ◌≤◌};
ghost use Rattle.tms_tree.specs.Place.{IsPlace, place_of};

use crate::Place;
use terrain_base::{TileId, grid_line};

/// The place of the tile's grid point in column `i` from the west and row `j` from the south, 0 to 66
/// each.
pub fn tile_place(tile: TileId, i: u8, j: u8) -> Place
    requires column { i ≤ 66 }
    requires row { j ≤ 66 }
    ensures value { result ≡ place_of tile i j }
    ensures place { IsPlace result }
{
    Place {
        p: tile.x as u64 * 32767 + grid_line(i) as u64,
        q: tile.y as u64 * 32767 + grid_line(j) as u64,
        d: 32767 << tile.z,
    }
}
