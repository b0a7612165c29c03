// The command `migrate`.
ghost use Rattle.std.specs.Prelude.{◌≡◌, ◌≤◌, IfOk, Some};
ghost use Rattle.terrain_base.specs.Step.{Files};
ghost use Rattle.top_reply.specs.Course.{Course};
ghost use Rattle.top_reply.specs.Migrate.{IsMigrated};
ghost use Rattle.terrain_top.specs.Effects.{OnStore};
ghost use Rattle.terrain_top.specs.Says.{IsPlain};
ghost use Rattle.terrain_top.specs.Told.{HasMigrated};
ghost use Rattle.terrain_top.specs.Turns.{TurnOf};

use crate::answer::{Answer, done};
use crate::change::tiles_in;
use crate::engine_answer::answer_of;
use db_migrate::migrate;
use db_report::migrated_line;
use std::alloc::Global;
use terrain_base::{Store, Work};
use top_reply::Stop;

/// Brings a database of an older version to the present one. It is not settled first, since no command of an older
/// version is finished here.
pub(crate) fn answer_to_migrate<St: Store>(
    alloc: Global,
    store: &mut St,
    work: &mut Work,
) -> Result<Answer, Stop>
    ensures goes { (files : Files) (course : Course) → St.holds store.old ≡ Some files → IsMigrated files course
        → TurnOf course (St.holds store.old) (St.holds store.new) (St.log store.old) (St.log store.new) work.old
        work.new result }
    ensures has { (files : Files) → St.holds store.old ≡ Some files → IfOk result (λ answer. HasMigrated files) }
    ensures plain { IfOk result IsPlain }
    ensures store { OnStore (St.faults store.old) (St.faults store.new) result }
    ensures more { work.old ≤ work.new }
{
    match migrate(alloc, store, work) {
        Ok(opened) => {
            let cells = opened.summaries().len() as u64;
            let tiles = tiles_in(alloc, &opened)?;
            let line = migrated_line(alloc, cells, tiles)?;
            done(alloc, &line)
        }
        Err(answer) => answer_of(alloc, &answer),
    }
}
