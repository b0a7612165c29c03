//! Places on the Earth, in tiles.
ghost use Rattle.std.specs.Prelude.{◌≡◌, pos, ◌+◌, ◌*◌, ◌≤◌, ◌<◌, ◌^◌, unsigned_abs};
ghost use Rattle.mesh_plane.specs.Plane.{point, IsTilePoint};
ghost use Rattle.tile_query.specs.Question.{IsGoodPlace, IsTileOfPlace, point_in, units_beyond};

use terrain_base::TileId;

/// Arc-seconds in half a turn.
const HALF_TURN: u32 = 648_000;

/// The tile of a level, 0 to 14, in which a place is looked up: whole arc-seconds east of 180 degrees west, 0 to
/// 1295999, and north of the south pole, 0 to 648000. The north pole lies in the last row.
pub fn tile_at(level: u8, east: u32, north: u32) -> TileId
    requires level { level ≤ 14 }
    requires east { east ≤ 1295999 }
    requires north { north ≤ 648000 }
    ensures level { result.z ≡ level }
    ensures tile { IsTileOfPlace result east north }
{
    let column = (u64::from(east) << level) / u64::from(HALF_TURN);
    let row = (u64::from(north) << level) / u64::from(HALF_TURN);
    let last = (1 << level) - 1;
    TileId {
        z: level,
        y: row.min(last) as u32,
        x: column as u32,
    }
}

/// How far arc-seconds are beyond the border of a column or row, in codes, 648000 times.
fn beyond(z: u8, stripe: u32, seconds: u32) -> i64
    requires level { z ≤ 14 }
    requires stripe { stripe < 2 ^ 15 }
    requires seconds { seconds < 2 ^ 21 }
    ensures { result ≡ units_beyond z stripe seconds }
{
    let from_border = (u64::from(seconds) << z) as i64;
    let border = i64::from(HALF_TURN) * i64::from(stripe);
    (from_border - border) * 32767
}

/// Where a place lies in the tile in which it is looked up, at the scale 648000.
pub(crate) fn point_of(tile: TileId, east: u32, north: u32) -> (i64, i64)
    requires { IsGoodPlace tile east north }
    ensures point { point result.0 result.1 ≡ point_in tile east north }
    ensures on_tile { IsTilePoint (pos 648000) result.0 result.1 }
{
    (
        beyond(tile.z(), tile.x(), east),
        beyond(tile.z(), tile.y(), north),
    )
}
