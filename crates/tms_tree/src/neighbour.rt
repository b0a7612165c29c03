// The tiles beside a tile.
ghost use Rattle.std.specs.Prelude.{◌≡◌, ◌+◌, ◌^◌, ◌↔◌, IsNone, IfSome};
ghost use Rattle.tms_tree.specs.Neighbour.{IsEastOf, IsNorthOf};

use terrain_base::TileId;

/// The tile of the same level that begins where this one ends in the east. That of the last column is
/// the first one.
pub fn neighbour_east(tile: TileId) -> TileId
    ensures { IsEastOf tile result }
{
    let x = (tile.x + 1) % (1 << (tile.z + 1));
    TileId {
        z: tile.z,
        y: tile.y,
        x,
    }
}

/// The tile of the same level that begins where this one ends in the north. `None` exactly in the top
/// row.
pub fn neighbour_north(tile: TileId) -> Option<TileId>
    ensures top { IsNone result ↔ (tile.y + 1 ≡ 2 ^ tile.z) }
    ensures value { IfSome result (λ north. IsNorthOf tile north) }
{
    TileId::of(tile.z, tile.x, tile.y + 1)
}
