// The command `convert`.
ghost use Rattle.std.specs.Prelude.{◌≡◌, IfOk, IfSome};
ghost use Rattle.std.specs.FinMap as map;
ghost use Rattle.terrain_base.specs.declared.square.Square as coded_square;
ghost use Rattle.top_reply.specs.Convert.{convert_reply, converted};
ghost use Rattle.top_reply.specs.File.{cell_limit, file_reply};
ghost use Rattle.terrain_top.specs.Effects.{Asks, OnlyMemory};
ghost use Rattle.terrain_top.specs.Says.{IsPlain, Says};

use crate::answer::{Answer, Ending, refused};
use crate::cell::CELL_LIMIT;
use crate::file::{FileRead, open_file};
use hgt_cells::{HgtView, hgt_refusal_text, hgt_square, to_cell};
use std::alloc::Global;
use terrain_base::{Library, Square};
use top_reply::Stop;

// The cell of the bytes of a raster, or why there is none.
fn convert(alloc: Global, square: Square, bytes: &[u8]) -> Result<Answer, Stop>
    ensures says { IfOk result (Says (converted square bytes.now)) }
    ensures plain { IfOk result IsPlain }
    ensures memory { OnlyMemory result }
{
    match HgtView::read(bytes, square) {
        Ok(view) => Ok(Answer {
            ending: Ending::Done,
            text: to_cell(alloc, &view)?,
        }),
        Err(refusal) => {
            let cause = hgt_refusal_text(alloc, &refusal)?;
            refused(alloc, &cause)
        }
    }
}

// The cell of a raster whose square is known.
fn convert_file<Li: Library>(
    alloc: Global,
    files: &mut Li,
    square: Square,
    file: &str,
) -> Result<Answer, Stop>
    ensures says { IfOk result (λ answer. IfSome (Li.holds files.old) (λ held. Says (file_reply file.now cell_limit
        (converted square) (map.get held file.now)) answer)) }
    ensures plain { IfOk result IsPlain }
    ensures asks { Asks Li.holds Li.faults files.old files.new result }
{
    match open_file(alloc, files, file, CELL_LIMIT)? {
        FileRead::Bytes(bytes) => convert(alloc, square, &bytes),
        FileRead::NoFile(cause) => refused(alloc, &cause),
    }
}

/// Gives the raster of a file, which has the form HGT, as the bytes of a cell, or says why it is refused: first the
/// file's name, which tells the square.
pub(crate) fn answer_to_convert<Li: Library>(
    alloc: Global,
    files: &mut Li,
    file: &str,
) -> Result<Answer, Stop>
    ensures says { IfOk result (λ answer. IfSome (Li.holds files.old) (λ held. Says (convert_reply file.now
        (map.get held file.now)) answer)) }
    ensures plain { IfOk result IsPlain }
    ensures asks { Asks Li.holds Li.faults files.old files.new result }
{
    match hgt_square(file) {
        Some(square) => convert_file(alloc, files, square, file),
        None => {
            let cause = format!(in alloc; "F4 bad hgt name {file}")?;
            refused(alloc, &cause)
        }
    }
}
