// Words that stand in several lines.
ghost use Rattle.std.specs.Prelude.{◌≡◌, IfOk, option_map, pos, string_bytes};
ghost use Rattle.std.specs.Str.{IsAscii};
ghost use Rattle.report_text.specs.Words.{number_or_dash};
ghost use Rattle.terrain_base.specs.Name.{name_text, tile_text};
ghost use Rattle.terrain_base.specs.SquareText.{square_text};

use std::alloc::Global;
use terrain_base::{Name, NoMemory, Square, TileId};

// Bytes of ASCII as text.
fn spelled(alloc: Global, bytes: &[u8]) -> Result<String, NoMemory>
    requires { IsAscii bytes.now }
    ensures { IfOk result (λ text. string_bytes text ≡ bytes.now) }
{
    let mut word = String::new(alloc);
    for byte in bytes {
        word.push(char::from(*byte))?;
    }
    Ok(word)
}

// The text of a square.
pub(crate) fn square_word(alloc: Global, square: Square) -> Result<String, NoMemory>
    ensures { IfOk result (λ text. string_bytes text ≡ square_text square) }
{
    let text = square.text();
    spelled(alloc, &text)
}

// The text of a name.
pub(crate) fn name_word(alloc: Global, name: &Name) -> Result<String, NoMemory>
    ensures { IfOk result (λ text. string_bytes text ≡ name_text name.now) }
{
    spelled(alloc, name.bytes())
}

// A tile's level, column and row.
pub(crate) fn tile_word(alloc: Global, tile: TileId) -> Result<String, NoMemory>
    ensures { IfOk result (λ text. string_bytes text ≡ tile_text tile) }
{
    let z = tile.z();
    let x = tile.x();
    let y = tile.y();
    Ok(format!(in alloc; "{z}/{x}/{y}")?)
}

// A number, or a dash where there is none.
pub(crate) fn number_word(alloc: Global, number: Option<i32>) -> Result<String, NoMemory>
    ensures { IfOk result (λ text. string_bytes text ≡ number_or_dash number) }
{
    match number {
        Some(metres) => Ok(metres.to_string(alloc)?),
        None => Ok(String::from_str(alloc, "-")?),
    }
}
