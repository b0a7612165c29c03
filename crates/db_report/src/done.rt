// Lines that tell what was done.
ghost use Rattle.std.specs.Prelude.{◌≡◌, IfOk, string_bytes};
ghost use Rattle.db_report.specs.Done.{word_of, created_line_of, edited_line_of, migrated_line_of, rebuilt_line_of, script_line_of, script_mark_of};

use crate::words::square_word;
use std::alloc::Global;
use terrain_base::{NoMemory, Params, Square};

/// What was done to a cell.
#[derive(Clone, Copy, Debug, PartialEq, Eq)]
pub enum Edited {
    Added,
    Replaced,
    Removed,
}

// The word that tells it.
fn edited_word(edited: Edited) -> &'static str
    ensures { result.now ≡ word_of edited }
{
    match edited {
        Edited::Added => "added",
        Edited::Replaced => "replaced",
        Edited::Removed => "removed",
    }
}

/// What is printed of a new database, without the line feed: its deepest level, and its fill in metres.
pub fn created_line(alloc: Global, params: Params) -> Result<String, NoMemory>
    ensures { IfOk result (λ line. string_bytes line ≡ created_line_of params) }
{
    let cap = params.cap();
    let fill = params.fill();
    Ok(format!(in alloc; "created cap {cap} fill {fill}")?)
}

/// What is printed of a cell that was added, replaced or removed, without the line feed: its square, and how many tiles
/// there are now.
pub fn edited_line(
    alloc: Global,
    edited: Edited,
    square: Square,
    tiles: u64,
) -> Result<String, NoMemory>
    ensures { IfOk result (λ line. string_bytes line ≡ edited_line_of edited square tiles) }
{
    let word = edited_word(edited);
    let square = square_word(alloc, square)?;
    Ok(format!(in alloc; "{word} {square} tiles {tiles}")?)
}

/// What is printed of a database that was made anew, without the line feed: how many tiles there are.
pub fn rebuilt_line(alloc: Global, tiles: u64) -> Result<String, NoMemory>
    ensures { IfOk result (λ line. string_bytes line ≡ rebuilt_line_of tiles) }
{
    Ok(format!(in alloc; "rebuilt tiles {tiles}")?)
}

/// What is printed of a database that was brought to the present version, without the line feed: how many cells and how
/// many tiles there are.
pub fn migrated_line(alloc: Global, cells: u64, tiles: u64) -> Result<String, NoMemory>
    ensures { IfOk result (λ line. string_bytes line ≡ migrated_line_of cells tiles) }
{
    Ok(format!(in alloc; "migrated cells {cells} tiles {tiles}")?)
}

/// What stands before the report of a script's line: its number, from 1.
pub fn script_mark(alloc: Global, number: u64) -> Result<String, NoMemory>
    ensures { IfOk result (λ mark. string_bytes mark ≡ script_mark_of number) }
{
    Ok(format!(in alloc; "line {number}: ")?)
}

/// What is printed at the end of a script, without the line feed: how many of its lines were done and how many refused.
pub fn script_line(alloc: Global, done: u64, refused: u64) -> Result<String, NoMemory>
    ensures { IfOk result (λ line. string_bytes line ≡ script_line_of done refused) }
{
    Ok(format!(in alloc; "script done {done} refused {refused}")?)
}
