// Commands over a database, which is settled first.
ghost use Rattle.std.specs.Prelude.{◌≡◌, ◌≤◌, false, true, IfOk, IsErrOf, Some};
ghost use Rattle.terrain_base.specs.Library.{LibraryFiles};
ghost use Rattle.terrain_base.specs.Step.{Files};
ghost use Rattle.database.specs.Opening.{Opening, OpensAs};
ghost use Rattle.database.specs.State.{State};
ghost use Rattle.db_engine.specs.Holding.{HoldsState};
ghost use Rattle.top_words.specs.Meant.{database_meant};
ghost use Rattle.top_words.specs.Words.{IsGoodOfDatabase};
ghost use Rattle.top_reply.specs.Course.{Course, world};
ghost use Rattle.top_reply.specs.Database.{IsDatabaseCourse, IsOpenedCourse};
ghost use Rattle.top_reply.specs.Top.{Tells, database_looks, database_reads};
ghost use Rattle.terrain_top.specs.Comes.{Comes};
ghost use Rattle.terrain_top.specs.Effects.{StopHasCause};
ghost use Rattle.terrain_top.specs.Says.{IsPlain};
ghost use Rattle.terrain_top.specs.Told.{HasOfDatabase, HasOpened};

use crate::answer::Answer;
use crate::change::answer_to_rebuild;
use crate::check::answer_to_check;
use crate::edit::answer_to_edit;
use crate::engine_answer::answer_of;
use crate::query::answer_to_query;
use crate::script::answer_to_apply;
use db_engine::{Opened, settle};
use std::alloc::Global;
use terrain_base::{Library, Sink, Store, Work};
use top_reply::Stop;
use top_words::DatabaseCommand;

// Does a command over an opened database.
fn answer_opened<St: Store, Li: Library, Si: Sink>(
    alloc: Global,
    store: &mut St,
    opened: &mut Opened,
    files: &mut Li,
    out: &mut Si,
    command: &DatabaseCommand<'_>,
    work: &mut Work,
) -> Result<Answer, Stop>
    requires live { opened.old.live ≡ true }
    requires good { IsGoodOfDatabase (database_meant command.now) }
    ensures comes { (s : State) (held : Files) (library : LibraryFiles) (course : Course)
        → HoldsState (St.holds store.old) opened.old s → St.holds store.old ≡ Some held
        → Tells (database_reads (database_meant command.now)) (Li.holds files.old) library
        → IsOpenedCourse (database_meant command.now) library s held course → Comes course
        (world (St.holds store.old) (St.log store.old) (Si.taken out.old) work.old)
        (world (St.holds store.new) (St.log store.new) (Si.taken out.new) work.new) result }
    ensures has { (s : State) (held : Files) (library : LibraryFiles) → HoldsState (St.holds store.old) opened.old s
        → St.holds store.old ≡ Some held
        → IfOk result (λ answer. HasOpened (database_meant command.now) library s held) }
    ensures same { Li.holds files.new ≡ Li.holds files.old }
    ensures library { StopHasCause Stop.Input (Li.faults files.old) (Li.faults files.new) result }
    ensures reads { IsErrOf result Stop.Input → database_reads (database_meant command.now) ≡ true }
    ensures plain { database_looks (database_meant command.now) ≡ false → IfOk result IsPlain }
    ensures store { StopHasCause Stop.Store (St.faults store.old) (St.faults store.new) result }
    ensures sink { StopHasCause Stop.Output (Si.faults out.old) (Si.faults out.new) result }
    ensures more { work.old ≤ work.new }
{
    match command {
        DatabaseCommand::Ask(query) => answer_to_query(alloc, store, opened, *query),
        DatabaseCommand::Change(edit) => answer_to_edit(alloc, store, opened, files, edit, work),
        DatabaseCommand::Apply { script } => {
            answer_to_apply(alloc, store, opened, files, out, script, work)
        }
        DatabaseCommand::Rebuild => answer_to_rebuild(alloc, store, opened, work),
        DatabaseCommand::Check => answer_to_check(alloc, store, opened, work),
    }
}

/// Settles the database, and does a command over it.
pub(crate) fn answer_to_database<St: Store, Li: Library, Si: Sink>(
    alloc: Global,
    store: &mut St,
    files: &mut Li,
    out: &mut Si,
    command: &DatabaseCommand<'_>,
    work: &mut Work,
) -> Result<Answer, Stop>
    requires { IsGoodOfDatabase (database_meant command.now) }
    ensures comes { (held : Files) (library : LibraryFiles) (opening : Opening) (course : Course)
        → St.holds store.old ≡ Some held
        → Tells (database_reads (database_meant command.now)) (Li.holds files.old) library → OpensAs held opening
        → IsDatabaseCourse (database_meant command.now) library held opening course → Comes course
        (world (St.holds store.old) (St.log store.old) (Si.taken out.old) work.old)
        (world (St.holds store.new) (St.log store.new) (Si.taken out.new) work.new) result }
    ensures told { (held : Files) (library : LibraryFiles) → St.holds store.old ≡ Some held
        → Tells (database_reads (database_meant command.now)) (Li.holds files.old) library
        → IfOk result (λ answer. HasOfDatabase (database_meant command.now) library held) }
    ensures same { Li.holds files.new ≡ Li.holds files.old }
    ensures library { StopHasCause Stop.Input (Li.faults files.old) (Li.faults files.new) result }
    ensures reads { IsErrOf result Stop.Input → database_reads (database_meant command.now) ≡ true }
    ensures plain { database_looks (database_meant command.now) ≡ false → IfOk result IsPlain }
    ensures store { StopHasCause Stop.Store (St.faults store.old) (St.faults store.new) result }
    ensures sink { StopHasCause Stop.Output (Si.faults out.old) (Si.faults out.new) result }
    ensures more { work.old ≤ work.new }
{
    match settle(alloc, store, work) {
        Ok(opened) => {
            let mut opened = opened;
            answer_opened(alloc, store, &mut opened, files, out, command, work)
        }
        Err(answer) => answer_of(alloc, &answer),
    }
}
