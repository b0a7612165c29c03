// The command `cell`.
ghost use Rattle.std.specs.Prelude.{◌≡◌, ℕ, List, IfOk, IfSome};
ghost use Rattle.std.specs.FinMap as map;
ghost use Rattle.dted_cell.specs.Facts.{AreFacts};
ghost use Rattle.top_reply.specs.Cell.{cell_reply, read_reply};
ghost use Rattle.terrain_top.specs.Effects.{Asks, OnlyMemory};
ghost use Rattle.terrain_top.specs.Says.{IsPlain, Says};

use crate::answer::{Answer, done, refused};
use crate::file::{FileRead, fetch_facts, file_read};
use dted_cell::{CellFacts, CellView};
use report_text::{cell_line, cell_refusal_text};
use std::alloc::Global;
use terrain_base::{Library, ReadBy};
use top_reply::Stop;

/// The most bytes that a cell's file may have.
pub(crate) const CELL_LIMIT: usize = 33_554_432;

// What is said of a cell.
fn tell_cell(alloc: Global, facts: &CellFacts) -> Result<Answer, Stop>
    ensures says { IfOk result (λ answer. (bytes : List ℕ) → AreFacts bytes facts.now
        → Says (read_reply bytes) answer) }
    ensures plain { IfOk result IsPlain }
    ensures memory { OnlyMemory result }
{
    let line = cell_line(alloc, facts)?;
    done(alloc, &line)
}

// What the bytes of a file come to.
fn read_cell(alloc: Global, bytes: &[u8]) -> Result<Answer, Stop>
    ensures says { IfOk result (Says (read_reply bytes.now)) }
    ensures plain { IfOk result IsPlain }
    ensures memory { OnlyMemory result }
{
    match CellView::read(bytes) {
        Ok(view) => tell_cell(alloc, &view.facts()),
        Err(refusal) => {
            let cause = cell_refusal_text(alloc, &refusal)?;
            refused(alloc, &cause)
        }
    }
}

/// Reads the cell of a file and says what it is, or why it is refused.
pub(crate) fn answer_to_cell<Li: Library>(
    alloc: Global,
    files: &mut Li,
    file: &str,
) -> Result<Answer, Stop>
    ensures says { IfOk result (λ answer. IfSome (Li.holds files.old) (λ held. Says (cell_reply file.now
        (map.get held file.now)) answer)) }
    ensures plain { IfOk result IsPlain }
    ensures asks { Asks Li.holds Li.faults files.old files.new result }
{
    let fetched = match fetch_facts(alloc, files, file, CELL_LIMIT)? {
        ReadBy::Found(facts) => return tell_cell(alloc, &facts),
        ReadBy::Whole(fetched) => fetched,
    };
    match file_read(alloc, file, CELL_LIMIT, fetched)? {
        FileRead::Bytes(bytes) => read_cell(alloc, &bytes),
        FileRead::NoFile(cause) => refused(alloc, &cause),
    }
}
