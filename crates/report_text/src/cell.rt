// The line of a cell.
ghost use Rattle.std.specs.Prelude.{◌≡◌, ℕ, List, IfOk, option_map, string_bytes};
ghost use Rattle.dted_cell.specs.Facts.{AreFacts};
ghost use Rattle.report_text.specs.Cell.{cell_line_of};

use crate::words::{number_word, square_word};
use dted_cell::CellFacts;
use std::alloc::Global;
use terrain_base::{Extremes, NoMemory, columns, level_number, rows};

// The least height, and the greatest.
fn ends(extremes: Option<Extremes>) -> (Option<i16>, Option<i16>)
    ensures least { result.0 ≡ option_map (λ of. of.least) extremes }
    ensures greatest { result.1 ≡ option_map (λ of. of.greatest) extremes }
{
    match extremes {
        Some(of) => (Some(of.least), Some(of.greatest)),
        None => (None, None),
    }
}

/// What `cell` prints of a good cell, without the line feed: its square, its level, how many
/// meridians and posts on each it has, its least and greatest height in metres (a dash where every
/// post is void) and how many posts are void.
pub fn cell_line(alloc: Global, facts: &CellFacts) -> Result<String, NoMemory>
    ensures { IfOk result (λ line. (bytes : List ℕ) → AreFacts bytes facts.now
        → string_bytes line ≡ cell_line_of bytes) }
{
    let CellFacts {
        square,
        level,
        voids,
        extremes,
    } = *facts;
    let name = square_word(alloc, square)?;
    let number = level_number(level);
    let columns = columns(square, level);
    let rows = rows(level);
    let (least, greatest) = ends(extremes);
    let least = number_word(alloc, least)?;
    let greatest = number_word(alloc, greatest)?;
    let shape = format!(in alloc; "{name} level {number} columns {columns} rows {rows}")?;
    Ok(format!(in alloc; "{shape} min {least} max {greatest} voids {voids}")?)
}
