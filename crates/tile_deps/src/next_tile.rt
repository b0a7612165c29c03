// The tile that comes next among those that touch a square.
ghost use Rattle.std.specs.Prelude.{◌≡◌, ◌==◌, ℕ, ◌+◌, ◌^◌, ◌<◌, ◌≤◌, ◌||◌, ◌&&◌, true, nat_le, MatchOption};
ghost use Rattle.tms_tree.specs.Touch.{touches_of};
ghost use Rattle.tms_tree.specs.Touched.{is_in_run, is_in_east, IsTouchedRows};
ghost use Rattle.tile_deps.specs.Walk.{number_of, IsNextColumn, IsNextTile, IsBehindAll};

use terrain_base::{Square, TileId};
use tms_tree::{TouchedRows, touched_row};

// The next column of the row behind this one. `None` at the last.
fn next_column(touched: TouchedRows, column: u32) -> Option<u32>
    requires rows { (z : ℕ) × IsTouchedRows z touched × (z ≤ 14) }
    requires among { (is_in_run touched.west column || is_in_east touched.east column) ≡ true }
    ensures { MatchOption result
        ((other : ℕ) → (is_in_run touched.west other || is_in_east touched.east other) ≡ true → other ≤ column)
        (IsNextColumn (λ other. is_in_run touched.west other || is_in_east touched.east other) column) }
{
    if column < touched.west.end {
        return Some(column + 1);
    }
    match touched.east {
        Some(east) if column < east.end => Some((column + 1).max(east.start)),
        _ => None,
    }
}

// The first tile of the level that touches the square: one does at each level.
fn first_of(square: Square, z: u8) -> TileId
    requires { z ≤ 14 }
    ensures level { result.z ≡ z }
    ensures first { IsNextTile (λ other. (other.z == z) && touches_of other square) 0 result }
{
    let touched = touched_row(square, z);
    TileId {
        z,
        y: touched.rows.start,
        x: touched.west.start,
    }
}

// The next tile of the tile's level behind it that touches the square, as it does. `None` at the last.
fn next_of_level(square: Square, tile: TileId) -> Option<TileId>
    requires { touches_of tile square ≡ true }
    ensures { MatchOption result
        (IsBehindAll (λ other. (other.z == tile.z) && touches_of other square) (number_of tile + 1))
        (IsNextTile (λ other. (other.z == tile.z) && touches_of other square) (number_of tile + 1)) }
{
    let touched = touched_row(square, tile.z);
    if let Some(x) = next_column(touched, tile.x) {
        return Some(TileId {
            z: tile.z,
            y: tile.y,
            x,
        });
    }
    if tile.y == touched.rows.end {
        return None;
    }
    Some(TileId {
        z: tile.z,
        y: tile.y + 1,
        x: touched.west.start,
    })
}

/// The next tile behind this one, of the levels to the cap, that touches the square, as it does. `None` at the last.
pub(crate) fn next_touched(square: Square, cap: u8, tile: TileId) -> Option<TileId>
    requires cap { cap ≤ 14 }
    requires level { tile.z ≤ cap }
    requires touches { touches_of tile square ≡ true }
    ensures { MatchOption result
        (IsBehindAll (λ other. nat_le other.z cap && touches_of other square) (number_of tile + 1))
        (IsNextTile (λ other. nat_le other.z cap && touches_of other square) (number_of tile + 1)) }
{
    if let Some(next) = next_of_level(square, tile) {
        return Some(next);
    }
    if tile.z == cap {
        return None;
    }
    Some(first_of(square, tile.z + 1))
}

/// The first tile that touches the square. One of level 0 does.
pub(crate) fn first_touched(square: Square) -> TileId
    ensures { (cap : ℕ) → IsNextTile (λ other. nat_le other.z cap && touches_of other square) 0 result }
{
    first_of(square, 0)
}
