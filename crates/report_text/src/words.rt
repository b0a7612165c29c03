// Words that stand in several lines.
ghost use Rattle.std.specs.Prelude.{◌≡◌, IfOk, string_bytes};
ghost use Rattle.std.specs.Str.{IsAscii};
ghost use Rattle.terrain_base.specs.SquareText.{square_text};
ghost use Rattle.report_text.specs.Words.{number_or_dash};

use std::alloc::Global;
use terrain_base::{NoMemory, Square};

// Seven bytes of ASCII as text.
fn spelled(alloc: Global, bytes: &[u8; 7]) -> Result<String, NoMemory>
    requires { IsAscii bytes.now }
    ensures { IfOk result (λ text. string_bytes text ≡ bytes.now) }
{
    let mut word = String::new(alloc);
    for byte in bytes {
        word.push(char::from(*byte))?;
    }
    Ok(word)
}

// The text of a square.
pub(crate) fn square_word(alloc: Global, square: Square) -> Result<String, NoMemory>
    ensures { IfOk result (λ text. string_bytes text ≡ square_text square) }
{
    let text = square.text();
    spelled(alloc, &text)
}

// A number, or a dash where there is none.
pub(crate) fn number_word(alloc: Global, number: Option<i16>) -> Result<String, NoMemory>
    ensures { IfOk result (λ text. string_bytes text ≡ number_or_dash number) }
{
    match number {
        Some(metres) => Ok(metres.to_string(alloc)?),
        None => Ok(String::from_str(alloc, "-")?),
    }
}
