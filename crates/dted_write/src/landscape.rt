// Cells of a made-up landscape.
ghost use Rattle.std.specs.Prelude.{◌≡◌, ◌≢◌, ◌+◌, ◌-◌, ◌*◌, ◌<◌, ◌≤◌, ◌^◌, ℕ, min, pos, IfOk, OnOk};
ghost use Rattle.terrain_base.specs.Level.{lat_step_of, lon_step_of, rows_of, columns_of};
ghost use Rattle.dted_write.specs.Post.{IsPost};
ghost use Rattle.dted_write.specs.Grid.{post_at};
ghost use Rattle.dted_cell.specs.Cell.{IsCell};
ghost use Rattle.dted_write.specs.Cell.{cell_text, columns_from};
ghost use Rattle.dted_write.specs.Landscape.{IsFilled};
ghost use Rattle.dted_write.specs.Generate.{
  knot_height,
  knot_of,
  beyond_knot,
  height_at,
  is_between_knots,
  is_hole,
  generated_post,
};

use crate::PostGrid;
use crate::cell::write_cell;
use crate::mixing::mix;
use std::alloc::Global;
use terrain_base::{CellLevel, NoMemory, Post, Square, columns, lat_step, lon_step, rows};

/// The height of a knot, in metres.
#[tactic(auto, unfolding(crate::specs::Generate::knot_height))]
fn knot_height(number: u64, east: u64, north: u64) -> u64
    requires { (east < 2880) × (north ≤ 1440) }
    ensures value { result ≡ knot_height number east north }
    ensures most { result ≤ 2000 }
{
    mix(number ^ mix(east * 4096 + north)) % 2001
}

/// The knot before a place in one direction, and the arc-seconds from it to the place.
fn split(seconds: u64) -> (u64, u64)
    requires { seconds ≤ 3600 }
    ensures knot { result.0 ≡ knot_of seconds }
    ensures beyond { result.1 ≡ beyond_knot seconds }
    ensures few { result.0 ≤ 7 }
    ensures near { result.1 ≤ 450 }
{
    let knot = (seconds / 450).min(7);
    (knot, seconds - 450 * knot)
}

/// A sum of heights that are weighted by what lies between them and a place, of 450 arc-seconds each way.
fn weighted(sw: u64, se: u64, nw: u64, ne: u64, fx: u64, fy: u64) -> u64
    requires heights { (sw ≤ 2000) × (se ≤ 2000) × (nw ≤ 2000) × (ne ≤ 2000) }
    requires place { (fx ≤ 450) × (fy ≤ 450) }
    ensures value { result ≡ sw * ((450 - fx) * (450 - fy)) + se * (fx * (450 - fy)) + nw * ((450 - fx) * fy)
        + ne * (fx * fy) }
    ensures most { result ≤ 405000000 }
{
    sw * ((450 - fx) * (450 - fy))
        + se * (fx * (450 - fy))
        + nw * ((450 - fx) * fy)
        + ne * (fx * fy)
}

/// The height at a place so many arc-seconds east and north of a square's corner, in metres.
#[tactic(auto, unfolding(crate::specs::Generate::height_at))]
fn height(number: u64, square: Square, east: u64, north: u64) -> u64
    requires { (east ≤ 3600) × (north ≤ 3600) }
    ensures value { result ≡ height_at number square east north }
    ensures most { result ≤ 2000 }
{
    let (kx, fx) = split(east);
    let (ky, fy) = split(north);
    let west = (8 * u64::from(square.lon()) + kx) % 2880;
    let east = (8 * u64::from(square.lon()) + kx + 1) % 2880;
    let south = 8 * u64::from(square.lat()) + ky;
    let sw = knot_height(number, west, south);
    let se = knot_height(number, east, south);
    let nw = knot_height(number, west, south + 1);
    let ne = knot_height(number, east, south + 1);
    weighted(sw, se, nw, ne, fx, fy) / 202_500
}

/// Whether a place lies strictly between knots in both directions, in the knot square of an odd number.
fn is_hole(number: u64, east: u64, north: u64) -> bool
    requires { (east ≤ 3600) × (north ≤ 3600) }
    ensures { result ≡ is_hole number east north }
{
    let (kx, fx) = split(east);
    let (ky, fy) = split(north);
    number % 2 == 1
        && kx == number % 8
        && ky == number / 8 % 8
        && (0 < fx && fx < 450)
        && (0 < fy && fy < 450)
}

/// The post of a column and a row.
#[tactic(auto, unfolding(crate::specs::Generate::generated_post), using(crate::proofs::Knots::east_within, crate::proofs::Knots::north_within))]
fn post(number: u64, square: Square, level: CellLevel, col: u16, row: u16) -> Post
    requires { (col < columns_of square level) × (row < rows_of level) }
    ensures value { result ≡ generated_post number square level col row }
    ensures height { IsPost result }
{
    let east = u64::from(col) * u64::from(lon_step(square, level));
    let north = u64::from(row) * u64::from(lat_step(level));
    if is_hole(number, east, north) {
        Post::Void
    } else {
        Post::Metres(height(number, square, east, north) as i16)
    }
}

/// Sets the posts of a column.
fn fill_column(posts: &mut PostGrid, number: u64, col: u16)
    requires { col < columns_of posts.old.square posts.old.level }
    ensures shape { (posts.new.square ≡ posts.old.square) × (posts.new.level ≡ posts.old.level) }
    ensures column { IsFilled posts.new number col (rows_of posts.old.level) }
    ensures others { (c row : ℕ) → c ≢ col → row < rows_of posts.old.level →
        post_at posts.new c row ≡ post_at posts.old c row }
{
    for row in 0..rows(posts.level()) {
        let post = post(number, posts.square(), posts.level(), col, row);
        posts.set(col, row, post);
    }
}

/// The posts of the landscape of a number.
fn landscape(
    alloc: Global,
    number: u64,
    square: Square,
    level: CellLevel,
) -> Result<PostGrid, NoMemory>
    ensures shape { IfOk result (λ posts. (posts.square ≡ square) × (posts.level ≡ level)) }
    ensures posts { IfOk result (λ posts. (col : ℕ) → col < columns_of square level →
        IsFilled posts number col (rows_of level)) }
{
    let mut posts = PostGrid::filled(alloc, square, level, Post::Void)?;
    for col in 0..columns(square, level) {
        fill_column(&mut posts, number, col);
    }
    Ok(posts)
}

/// A cell of a made-up landscape, which the number chooses: knots 450 arc-seconds apart, 0 to 2000 metres
/// high, bilinear between them. An odd number has voids inside one knot square. It is read again as a cell
/// of these posts.
pub fn generate(
    alloc: Global,
    number: u64,
    square: Square,
    level: CellLevel,
) -> Result<Vec<u8>, NoMemory>
    ensures text { IfOk result (λ text. text.items ≡ cell_text square level (generated_post number square level)) }
    ensures cell { IfOk result (λ text. IsCell text.items square level
        (columns_from square level (generated_post number square level))) }
{
    let posts = landscape(alloc, number, square, level)?;
    let text = write_cell(alloc, &posts)?;
    Ok(text)
}
