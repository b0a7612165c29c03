// The command `check`.
ghost use Rattle.std.specs.Prelude.{◌≡◌, ◌≤◌, IfOk, Some, true};
ghost use Rattle.terrain_base.specs.Step.{Files};
ghost use Rattle.database.specs.State.{State};
ghost use Rattle.db_engine.specs.Holding.{HoldsState};
ghost use Rattle.top_reply.specs.Check.{IsChecked, check_reply, status_of_verdict};
ghost use Rattle.top_reply.specs.Course.{Course};
ghost use Rattle.terrain_top.specs.Effects.{OnlyMemory, OnStore};
ghost use Rattle.terrain_top.specs.Says.{Says, status_at};
ghost use Rattle.terrain_top.specs.Turns.{TurnOf};

use crate::answer::{Answer, Ending};
use crate::engine_answer::answer_of;
use db_check::{CheckVerdict, check};
use db_engine::Opened;
use db_report::check_line;
use std::alloc::Global;
use terrain_base::{Store, Work};
use top_reply::Stop;

// How a check ended.
fn ending_of(verdict: &CheckVerdict) -> Ending
    ensures { status_at result ≡ status_of_verdict verdict.now }
{
    match verdict {
        CheckVerdict::Good { .. } => Ending::Done,
        CheckVerdict::Found { .. } => Ending::Found,
    }
}

// What a check came to.
fn tell(alloc: Global, verdict: &CheckVerdict) -> Result<Answer, Stop>
    ensures says { IfOk result (Says (check_reply verdict.now)) }
    ensures memory { OnlyMemory result }
{
    let line = check_line(alloc, verdict)?;
    let text = format!(in alloc; "{line}\n")?;
    Ok(Answer {
        ending: ending_of(verdict),
        text: text.into_bytes(),
    })
}

/// Compares every file of a database with one that is made anew, and says which is the least that is another, missing
/// or too much.
pub(crate) fn answer_to_check<St: Store>(
    alloc: Global,
    store: &mut St,
    opened: &Opened,
    work: &mut Work,
) -> Result<Answer, Stop>
    requires { opened.now.live ≡ true }
    ensures goes { (s : State) (files : Files) (course : Course) → HoldsState (St.holds store.old) opened.now s
        → St.holds store.old ≡ Some files → IsChecked s files course
        → TurnOf course (St.holds store.old) (St.holds store.new) (St.log store.old) (St.log store.new) work.old
        work.new result }
    ensures store { OnStore (St.faults store.old) (St.faults store.new) result }
    ensures more { work.old ≤ work.new }
{
    match check(alloc, store, opened, work) {
        Ok(verdict) => tell(alloc, &verdict),
        Err(answer) => answer_of(alloc, &answer),
    }
}
