// Edits of the cells, as commands and as lines of scripts: first the file, then its grammar, then the database.
ghost use Rattle.std.specs.Prelude.{◌≡◌, ◌⊎◌, ◌≤◌, true, IfErr, IfOk, IfSome, IsErrOf};
ghost use Rattle.std.specs.FinMap as map;
ghost use Rattle.terrain_base.specs.Library.{LibraryFiles};
ghost use Rattle.database.specs.declared.answer.EngineAnswer.TheVariants as engine;
ghost use Rattle.database.specs.State.{State};
ghost use Rattle.db_engine.specs.Holding.{HoldsState};
ghost use Rattle.db_report.specs.Done.{edited_line_of};
ghost use Rattle.top_words.specs.Meant.{edit_meant};
ghost use Rattle.top_reply.specs.Edits.{edit_reply, wanted, wanted_reply};
ghost use Rattle.top_reply.specs.File.{Bytes, cell_limit, found_in};
ghost use Rattle.top_reply.specs.Reply.{done_reply};
ghost use Rattle.top_reply.specs.Top.{Tells, edit_reads};
ghost use Rattle.terrain_top.specs.EditGoes.{Answers, CellWanted, EditGoes, tiles_of};
ghost use Rattle.terrain_top.specs.Effects.{Asks, OnlyMemory, OnStore, StopHasCause};
ghost use Rattle.terrain_top.specs.Meant.{wanted_meant};
ghost use Rattle.terrain_top.specs.Says.{IsPlain};

use crate::answer::{Answer, done, refused};
use crate::cell::CELL_LIMIT;
use crate::change::tiles_in;
use crate::engine_answer::answer_of;
use crate::file::{FileRead, open_file};
use database::EngineAnswer;
use db_engine::{Opened, add, remove, replace};
use db_report::{Edited, edited_line};
use dted_cell::CellBytes;
use report_text::cell_refusal_text;
use std::alloc::Global;
use terrain_base::{CellKey, Library, Square, Store, Work};
use top_reply::Stop;
use top_words::Edit;

/// An edit whose file was read.
#[derive(Drop)]
pub(crate) enum Wanted {
    /// It is refused before the database is asked, by this cause.
    Refused(String),
    Add(CellBytes),
    Replace(CellBytes),
    Remove(CellKey),
}

// The cell of a file, or the cause why there is none.
#[derive(Drop)]
enum CellRead {
    Cell(CellBytes),
    Refused(String),
}

// The cell that the bytes of a file are.
fn check_cell(alloc: Global, bytes: Vec<u8>) -> Result<CellRead, Stop>
    ensures wanted { IfOk result (CellWanted (Bytes bytes.items)) }
    ensures memory { OnlyMemory result }
{
    match CellBytes::check(bytes) {
        Ok(cell) => Ok(CellRead::Cell(cell)),
        Err(other) => Ok(CellRead::Refused(cell_refusal_text(alloc, &other.refusal)?)),
    }
}

// The cell of a file.
fn read_cell_of<Li: Library>(alloc: Global, files: &mut Li, file: &str) -> Result<CellRead, Stop>
    ensures wanted { IfOk result (λ read. IfSome (Li.holds files.old) (λ held. CellWanted
        (found_in file.now cell_limit (map.get held file.now)) read)) }
    ensures asks { Asks Li.holds Li.faults files.old files.new result }
{
    match open_file(alloc, files, file, CELL_LIMIT)? {
        FileRead::Bytes(bytes) => check_cell(alloc, bytes),
        FileRead::NoFile(cause) => Ok(CellRead::Refused(cause)),
    }
}

/// Reads the file of an edit, if it has one.
pub(crate) fn read_wanted<Li: Library>(
    alloc: Global,
    files: &mut Li,
    edit: &Edit<'_>,
) -> Result<Wanted, Stop>
    ensures wanted { (library : LibraryFiles) → Tells (edit_reads (edit_meant edit.now)) (Li.holds files.old) library
        → IfOk result (λ read. wanted_meant read ≡ wanted (edit_meant edit.now) library) }
    ensures asks { Asks Li.holds Li.faults files.old files.new result }
    ensures reads { IsErrOf result Stop.Input → edit_reads (edit_meant edit.now) ≡ true }
{
    match *edit {
        Edit::Add { file } => match read_cell_of(alloc, files, file)? {
            CellRead::Cell(cell) => Ok(Wanted::Add(cell)),
            CellRead::Refused(cause) => Ok(Wanted::Refused(cause)),
        },
        Edit::Replace { file } => match read_cell_of(alloc, files, file)? {
            CellRead::Cell(cell) => Ok(Wanted::Replace(cell)),
            CellRead::Refused(cause) => Ok(Wanted::Refused(cause)),
        },
        Edit::Remove { key } => Ok(Wanted::Remove(key)),
    }
}

// What an edit of the database came to.
fn told(
    alloc: Global,
    opened: &Opened,
    outcome: Result<(), EngineAnswer>,
    edited: Edited,
    square: Square,
) -> Result<Answer, Stop>
    ensures answers { Answers (done_reply (edited_line_of edited square (tiles_of opened.now))) outcome result }
    ensures plain { IfOk result IsPlain }
    ensures store { IsErrOf result Stop.Store → IsErrOf outcome engine.StoreFault }
    ensures only { IfErr result (λ stop. (stop ≡ Stop.Store) ⊎ (stop ≡ Stop.NoMemory)) }
{
    match outcome {
        Ok(()) => {
            let tiles = tiles_in(alloc, opened)?;
            let line = edited_line(alloc, edited, square, tiles)?;
            done(alloc, &line)
        }
        Err(answer) => answer_of(alloc, &answer),
    }
}

/// Does an edit whose file was read. Where it is refused since something is wrong with a stored cell, the database
/// may not be used any more.
pub(crate) fn carry_out<St: Store>(
    alloc: Global,
    store: &mut St,
    opened: &mut Opened,
    wanted: Wanted,
    work: &mut Work,
) -> Result<Answer, Stop>
    requires { opened.old.live ≡ true }
    ensures goes { (s : State) → HoldsState (St.holds store.old) opened.old s
        → EditGoes (wanted_reply (wanted_meant wanted) s) (St.holds store.old) (St.holds store.new)
        (St.log store.old) (St.log store.new) opened.new work.old work.new result }
    ensures plain { IfOk result IsPlain }
    ensures store { OnStore (St.faults store.old) (St.faults store.new) result }
    ensures more { work.old ≤ work.new }
{
    match wanted {
        Wanted::Refused(cause) => refused(alloc, &cause),
        Wanted::Add(cell) => {
            let outcome = add(alloc, store, opened, &cell, work);
            told(alloc, opened, outcome, Edited::Added, cell.view().square())
        }
        Wanted::Replace(cell) => {
            let outcome = replace(alloc, store, opened, &cell, work);
            told(
                alloc,
                opened,
                outcome,
                Edited::Replaced,
                cell.view().square(),
            )
        }
        Wanted::Remove(key) => {
            let outcome = remove(alloc, store, opened, key, work);
            told(alloc, opened, outcome, Edited::Removed, key.square)
        }
    }
}

/// Adds, replaces or removes a cell.
pub(crate) fn answer_to_edit<St: Store, Li: Library>(
    alloc: Global,
    store: &mut St,
    opened: &mut Opened,
    files: &mut Li,
    edit: &Edit<'_>,
    work: &mut Work,
) -> Result<Answer, Stop>
    requires { opened.old.live ≡ true }
    ensures goes { (s : State) (library : LibraryFiles) → HoldsState (St.holds store.old) opened.old s
        → Tells (edit_reads (edit_meant edit.now)) (Li.holds files.old) library
        → EditGoes (edit_reply (edit_meant edit.now) library s) (St.holds store.old) (St.holds store.new)
        (St.log store.old) (St.log store.new) opened.new work.old work.new result }
    ensures plain { IfOk result IsPlain }
    ensures same { Li.holds files.new ≡ Li.holds files.old }
    ensures library { StopHasCause Stop.Input (Li.faults files.old) (Li.faults files.new) result }
    ensures reads { IsErrOf result Stop.Input → edit_reads (edit_meant edit.now) ≡ true }
    ensures store { StopHasCause Stop.Store (St.faults store.old) (St.faults store.new) result }
    ensures silent { ¬ IsErrOf result Stop.Output }
    ensures more { work.old ≤ work.new }
{
    let wanted = read_wanted(alloc, files, edit)?;
    carry_out(alloc, store, opened, wanted, work)
}
