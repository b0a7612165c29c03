// The texts of refusals.
ghost use Rattle.std.specs.Prelude.{◌≡◌, IfOk, option_map, string_bytes};
ghost use Rattle.db_report.specs.Refusal.{refusal_text_of, trouble_text_of, key_text_of};

use crate::words::{name_word, square_word, tile_word};
use database::EngineAnswer;
use dted_cell::CellTrouble;
use report_text::cell_refusal_text;
use std::alloc::Global;
use terrain_base::{CellLevel, NoMemory, Square, level_number};

/// What is printed of a script's line that has none of the forms, from its number on.
pub const NO_COMMAND: &str = "F3 not a command";

// A square and a level.
fn key_word(alloc: Global, square: Square, level: CellLevel) -> Result<String, NoMemory>
    ensures { IfOk result (λ text. string_bytes text ≡ key_text_of square level) }
{
    let square = square_word(alloc, square)?;
    let level = level_number(level);
    Ok(format!(in alloc; "{square} level {level}")?)
}

// What is wrong with a stored cell.
fn trouble_text(alloc: Global, trouble: &CellTrouble) -> Result<String, NoMemory>
    ensures { IfOk result (λ text. string_bytes text ≡ trouble_text_of trouble.now) }
{
    match trouble {
        CellTrouble::Lost { name } => {
            let name = name_word(alloc, name)?;
            Ok(format!(in alloc; "K6 cell lost {name}")?)
        }
        CellTrouble::Bad { name, refusal } => {
            let name = name_word(alloc, name)?;
            let refusal = cell_refusal_text(alloc, refusal)?;
            Ok(format!(in alloc; "K7 cell bad {name} {refusal}")?)
        }
        CellTrouble::Elsewhere { name, found } => {
            let name = name_word(alloc, name)?;
            let found = square_word(alloc, *found)?;
            Ok(format!(in alloc; "K8 cell elsewhere {name} {found}")?)
        }
        CellTrouble::Changed {
            name,
            opened,
            found,
        } => {
            let name = name_word(alloc, name)?;
            let opened = level_number(*opened);
            let found = level_number(*found);
            Ok(format!(in alloc; "K9 cell changed {name} from level {opened} to level {found}")?)
        }
    }
}

/// What is printed of an answer that refuses, from its number on: `K1` to `K13`. `None` exactly where it refuses
/// nothing, since the store failed or memory was refused.
pub fn refusal_text(alloc: Global, answer: &EngineAnswer) -> Result<Option<String>, NoMemory>
    ensures { IfOk result (λ text. option_map string_bytes text ≡ refusal_text_of answer.now) }
{
    let text = match *answer {
        EngineAnswer::CellPresent { square, level } => {
            let key = key_word(alloc, square, level)?;
            format!(in alloc; "K1 cell present {key}")?
        }
        EngineAnswer::CellAbsent { square, level } => {
            let key = key_word(alloc, square, level)?;
            format!(in alloc; "K2 cell absent {key}")?
        }
        EngineAnswer::DatabaseFull => String::from_str(alloc, "K3 database full")?,
        EngineAnswer::NotEmpty { name } => {
            let name = name_word(alloc, &name)?;
            format!(in alloc; "K4 not empty {name}")?
        }
        EngineAnswer::NotADatabase { line } => {
            format!(in alloc; "K5 not a database line {line}")?
        }
        EngineAnswer::Trouble(trouble) => trouble_text(alloc, &trouble)?,
        EngineAnswer::NoTile { tile } => {
            let tile = tile_word(alloc, tile)?;
            format!(in alloc; "K10 no tile {tile}")?
        }
        EngineAnswer::TileLost { name } => {
            let name = name_word(alloc, &name)?;
            format!(in alloc; "K11 tile lost {name}")?
        }
        EngineAnswer::OldVersion { version } => format!(in alloc; "K12 old version {version}")?,
        EngineAnswer::NotOld { version } => format!(in alloc; "K13 not old version {version}")?,
        EngineAnswer::StoreFault => return Ok(None),
        EngineAnswer::NoMemory => return Ok(None),
    };
    Ok(Some(text))
}
