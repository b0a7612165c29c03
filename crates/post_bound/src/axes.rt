// The columns and rows of a cell over a tile, at the scale 10125.
ghost use Rattle.std.specs.Prelude.{◌≡◌, ◌-◌, ℕ, ℤ, pos, ◌*◌, ◌+ℤ◌, ◌-ℤ◌, ◌*ℤ◌, ◌≤ℤ◌, ◌^◌, ◌≤◌, ◌<◌, unsigned_abs};
ghost use Rattle.lattice_sweep.specs.Axis.{point_of, IsAxis};
ghost use Rattle.post_bound.specs.Window.{place_in, AreColumns, AreRows};

use lattice_sweep::Axis;
use terrain_base::{CellKey, TileId, columns, lat_step, lon_step, rows};

// Arc-seconds times the scale of a level.
fn times(seconds: i64, k: i64) -> i64
    requires seconds { unsigned_abs seconds ≤ 2 ^ 22 }
    requires k { unsigned_abs k ≤ 2 ^ 8 }
    ensures value { result ≡ seconds *ℤ k }
    ensures size { unsigned_abs result ≤ 2 ^ 30 }
{
    seconds * k
}

// Where a line begins, in steps of 1/32767 of the scale.
fn start(seconds: i64, k: i64, stripe: u32) -> i64
    requires seconds { unsigned_abs seconds ≤ 2 ^ 22 }
    requires k { unsigned_abs k ≤ 2 ^ 8 }
    requires stripe { stripe < 2 ^ 15 }
    ensures value { result ≡ seconds *ℤ k -ℤ pos (10125 * stripe) }
    ensures size { unsigned_abs result ≤ 2 ^ 31 }
{
    times(seconds, k) - i64::from(10125 * stripe)
}

// The same at the scale.
fn widened(n: i64) -> i64
    requires { unsigned_abs n ≤ 2 ^ 31 }
    ensures value { result ≡ pos 32767 *ℤ n }
    ensures size { unsigned_abs result ≤ 2 ^ 46 }
{
    32767 * n
}

// The posts of a line that begins so many arc-seconds on and has a post each `step` seconds, from the southern or
// western edge of the tile's stripe on.
fn axis(seconds: i64, step: u16, posts: u16, k: i64, stripe: u32) -> Axis
    requires seconds { unsigned_abs seconds ≤ 2 ^ 22 }
    requires step { (1 ≤ step) × (step ≤ 2 ^ 8) }
    requires k { (pos 1 ≤ℤ k) × (k ≤ℤ pos 256) }
    requires stripe { stripe < 2 ^ 15 }
    ensures points { (i : ℕ) → point_of result i ≡ place_in seconds k stripe step i }
    ensures from { result.from ≡ 0 }
    ensures to { result.to ≡ posts }
    ensures axis { IsAxis result }
{
    Axis {
        first: widened(start(seconds, k, stripe)),
        step: widened(times(i64::from(step), k)),
        from: 0,
        to: posts,
    }
}

// How much finer the level's tiles are than those of level 6.
fn scale_of(tile: TileId) -> i64
    requires { 6 ≤ tile.z }
    ensures value { result ≡ pos (2 ^ (tile.z - 6)) }
    ensures within { (pos 1 ≤ℤ result) × (result ≤ℤ pos 256) }
{
    i64::from(1u32 << (tile.z() - 6))
}

// The arc-seconds of a degree, so many turns of the globe further.
fn seconds_of(degree: u16, turns: i64) -> i64
    requires degree { degree < 360 }
    requires turns { unsigned_abs turns ≤ 1 }
    ensures value { result ≡ pos (3600 * degree) +ℤ turns *ℤ pos 1296000 }
    ensures size { unsigned_abs result ≤ 2 ^ 22 }
{
    i64::from(3600 * u32::from(degree)) + turns * 1296000
}

// The columns of the key's cell over a tile, so many turns of the globe further.
pub(crate) fn columns_over(tile: TileId, key: CellKey, turns: i64) -> Axis
    requires deep { 6 ≤ tile.z }
    requires turns { unsigned_abs turns ≤ 1 }
    ensures columns { AreColumns tile key turns result }
    ensures axis { IsAxis result }
{
    let seconds = seconds_of(key.square.lon(), turns);
    let step = lon_step(key.square, key.level);
    axis(
        seconds,
        step,
        columns(key.square, key.level),
        scale_of(tile),
        tile.x(),
    )
}

// The rows of the key's cell over a tile.
pub(crate) fn rows_over(tile: TileId, key: CellKey) -> Axis
    requires deep { 6 ≤ tile.z }
    ensures rows { AreRows tile key result }
    ensures axis { IsAxis result }
{
    let seconds = seconds_of(key.square.lat(), 0);
    axis(
        seconds,
        lat_step(key.level),
        rows(key.level),
        scale_of(tile),
        tile.y(),
    )
}
