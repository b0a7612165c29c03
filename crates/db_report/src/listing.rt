// Reports of several lines.
ghost use Rattle.std.specs.Prelude.{◌≡◌, ◌++◌, IfOk, OnOk, codes, option_map, string_bytes};
ghost use Rattle.db_report.specs.Listing.{list_text_of, row_line_of, deps_text_of};

use crate::words::{number_word, square_word, tile_word};
use std::alloc::Global;
use terrain_base::{Extremes, NoMemory, Params, Square, Summary, TileId, level_number};

// A line behind others, with its line feed.
fn push_line(text: &mut String, line: &str) -> Result<(), NoMemory>
    ensures { OnOk result (string_bytes text.new ≡ string_bytes text.old ++ (line.now ++ codes "\n")) }
{
    text.push_str(line)?;
    text.push('\n')?;
    Ok(())
}

// The least height, and the greatest.
fn ends(extremes: Option<Extremes>) -> (Option<i32>, Option<i32>)
    ensures least { result.0 ≡ option_map (λ of. of.least) extremes }
    ensures greatest { result.1 ≡ option_map (λ of. of.greatest) extremes }
{
    match extremes {
        Some(of) => (Some(i32::from(of.least)), Some(i32::from(of.greatest))),
        None => (None, None),
    }
}

// The line of a cell in a listing.
fn row_line(alloc: Global, row: &Summary) -> Result<String, NoMemory>
    ensures { IfOk result (λ line. string_bytes line ≡ row_line_of row.now) }
{
    let square = square_word(alloc, row.square)?;
    let level = level_number(row.level);
    let (least, greatest) = ends(row.extremes);
    let least = number_word(alloc, least)?;
    let greatest = number_word(alloc, greatest)?;
    Ok(format!(in alloc; "{square} level {level} min {least} max {greatest}")?)
}

/// What is printed of a database, with its line feeds: its params and how many cells it has, then for each cell its
/// square, its level, and its least and greatest height in metres, or a dash where every post is void.
pub fn list_text(alloc: Global, params: Params, rows: &[Summary]) -> Result<String, NoMemory>
    ensures { IfOk result (λ text. string_bytes text ≡ list_text_of params rows.now) }
{
    let cap = params.cap();
    let fill = params.fill();
    let cells = rows.len();
    let mut text = format!(in alloc; "cap {cap} fill {fill} cells {cells}\n")?;
    for row in rows {
        let line = row_line(alloc, row)?;
        push_line(&mut text, &line)?;
    }
    Ok(text)
}

/// What is printed of the squares with cells that a tile touches, with its line feeds: how many they are, then each.
pub fn deps_text(alloc: Global, tile: TileId, squares: &[Square]) -> Result<String, NoMemory>
    ensures { IfOk result (λ text. string_bytes text ≡ deps_text_of tile squares.now) }
{
    let tile = tile_word(alloc, tile)?;
    let cells = squares.len();
    let mut text = format!(in alloc; "tile {tile} cells {cells}\n")?;
    for square in squares {
        let line = square_word(alloc, *square)?;
        push_line(&mut text, &line)?;
    }
    Ok(text)
}
