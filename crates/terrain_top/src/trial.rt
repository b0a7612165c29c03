// Generated commands over a database in memory.
ghost use Rattle.std.specs.Prelude.{◌≡◌, ◌≤◌, ℕ, IfOk, List, Option};
ghost use Rattle.terrain_base.specs.declared.store.Change.{Change};
ghost use Rattle.terrain_base.specs.Step.{Files};
ghost use Rattle.top_reply.specs.Course.{Course, world};
ghost use Rattle.top_reply.specs.Trial.{IsTrialCourse};
ghost use Rattle.terrain_top.specs.Comes.{Comes};
ghost use Rattle.terrain_top.specs.Effects.{OnlyMemory};
ghost use Rattle.terrain_top.specs.Says.{IsPlain};

use crate::answer::{Answer, done};
use db_report::trial_line;
use db_trial::run_trial;
use std::alloc::Global;
use terrain_base::Work;
use top_reply::Stop;

/// Runs generated commands over a database in memory, and tells how many of them were accepted and how large it is,
/// beside the size of one that is built from scratch over the same cells.
pub(crate) fn answer_to_trial(
    alloc: Global,
    count: u8,
    number: u64,
    work: &mut Work,
) -> Result<Answer, Stop>
    ensures comes { (held : Option Files) (log : Option (List Change)) (taken : Option (List ℕ)) (course : Course)
        → IsTrialCourse count number course → Comes course (world held log taken work.old)
        (world held log taken work.new) result }
    ensures plain { IfOk result IsPlain }
    ensures told { IfOk result (λ answer. (course : Course) × IsTrialCourse count number course) }
    ensures memory { OnlyMemory result }
    ensures more { work.old ≤ work.new }
{
    match run_trial(alloc, count, number, work) {
        Ok(report) => {
            let line = trial_line(alloc, &report)?;
            done(alloc, &line)
        }
        // A store in memory stops for nothing else.
        Err(_) => Err(Stop::NoMemory),
    }
}
