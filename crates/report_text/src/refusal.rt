// The texts of refusals.
ghost use Rattle.std.specs.Prelude.{◌≡◌, IfOk, string_bytes};
ghost use Rattle.report_text.specs.Refusal.{cell_refusal_of};

use dted_cell::CellRefusal;
use std::alloc::Global;
use terrain_base::NoMemory;

/// What is printed of a refused cell, from its number on: `C1` to `C14`, what is wrong and where.
pub fn cell_refusal_text(alloc: Global, refusal: &CellRefusal) -> Result<String, NoMemory>
    ensures { IfOk result (λ text. string_bytes text ≡ cell_refusal_of refusal.now) }
{
    match *refusal {
        CellRefusal::TooShort { need, have } => Ok(format!(in alloc;
            "C1 too short need {need} have {have}"
        )?),
        CellRefusal::NoUhl => Ok(String::from_str(alloc, "C2 no UHL")?),
        CellRefusal::BadField { offset } => Ok(format!(in alloc; "C3 bad field at {offset}")?),
        CellRefusal::OffDegree => Ok(String::from_str(alloc, "C4 off degree")?),
        CellRefusal::WrongSpacing => Ok(String::from_str(alloc, "C5 wrong spacing")?),
        CellRefusal::WrongCounts => Ok(String::from_str(alloc, "C6 wrong counts")?),
        CellRefusal::NoDsi => Ok(String::from_str(alloc, "C7 no DSI")?),
        CellRefusal::SeriesDisagrees => Ok(String::from_str(alloc, "C8 series disagrees")?),
        CellRefusal::NotWgs84 => Ok(String::from_str(alloc, "C9 not WGS84")?),
        CellRefusal::NoAcc => Ok(String::from_str(alloc, "C10 no ACC")?),
        CellRefusal::BadSentinel { col } => Ok(format!(in alloc; "C11 bad sentinel column {col}")?),
        CellRefusal::BadColumn { col } => Ok(format!(in alloc; "C12 bad column {col}")?),
        CellRefusal::BadChecksum {
            col,
            stated,
            summed,
        } => Ok(format!(in alloc;
            "C13 bad checksum column {col} stated {stated} summed {summed}"
        )?),
        CellRefusal::HeightOutOfRange { col, row, value } => Ok(format!(in alloc;
            "C14 height column {col} row {row} value {value}"
        )?),
    }
}
