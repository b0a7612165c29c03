// The texts of refusals.
ghost use Rattle.std.specs.Prelude.{◌≡◌, ◌++◌, codes, decimal, IfOk, string_bytes};
ghost use Rattle.std.specs.Fmt.{signed_decimal};
ghost use Rattle.hgt_cells.specs.Text.{sample_text_of, hgt_refusal_text_of};

use crate::HgtRefusal;
use std::alloc::Global;
use terrain_base::NoMemory;

// What is printed of a sample.
fn sample_text(alloc: Global, line: u16, place: u16, value: i16) -> Result<String, NoMemory>
    ensures { IfOk result (λ text. string_bytes text ≡ sample_text_of line place value) }
{
    Ok(format!(in alloc; "H2 height line {line} place {place} value {value}")?)
}

/// What is printed of a refused HGT file, from its number on: `H1` or `H2`, what is wrong and where.
pub fn hgt_refusal_text(alloc: Global, refusal: &HgtRefusal) -> Result<String, NoMemory>
    ensures { IfOk result (λ text. string_bytes text ≡ hgt_refusal_text_of refusal.now) }
{
    match *refusal {
        HgtRefusal::BadLength { have } => Ok(format!(in alloc; "H1 bad length {have}")?),
        HgtRefusal::HeightOutOfRange { line, place, value } => {
            sample_text(alloc, line, place, value)
        }
    }
}
