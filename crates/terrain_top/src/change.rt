// The commands that make a database, or make it anew.
ghost use Rattle.std.specs.Prelude.{◌≡◌, ◌≤◌, true, IfOk, Some};
ghost use Rattle.terrain_base.specs.Step.{Files};
ghost use Rattle.database.specs.State.{State};
ghost use Rattle.db_engine.specs.Holding.{HoldsState};
ghost use Rattle.top_reply.specs.Database.{init_course, rebuilt_course};
ghost use Rattle.terrain_top.specs.EditGoes.{tiles_of};
ghost use Rattle.terrain_top.specs.Effects.{OnlyMemory, OnStore};
ghost use Rattle.terrain_top.specs.Says.{IsPlain};
ghost use Rattle.terrain_top.specs.Turns.{TurnOf};

use crate::answer::{Answer, done};
use crate::engine_answer::answer_of;
use availability::tile_count;
use db_engine::{Opened, init, rebuild};
use db_report::{created_line, rebuilt_line};
use std::alloc::Global;
use terrain_base::{Params, Store, Work};
use top_reply::Stop;

/// How many tiles an opened database has.
pub(crate) fn tiles_in(alloc: Global, opened: &Opened) -> Result<u64, Stop>
    ensures count { IfOk result (λ tiles. tiles ≡ tiles_of opened.now) }
    ensures memory { OnlyMemory result }
{
    Ok(tile_count(alloc, opened.summaries(), opened.params().cap())?)
}

/// Makes a database without cells.
pub(crate) fn answer_to_init<St: Store>(
    alloc: Global,
    store: &mut St,
    params: Params,
    work: &mut Work,
) -> Result<Answer, Stop>
    ensures goes { (files : Files) → St.holds store.old ≡ Some files
        → TurnOf (init_course params files) (St.holds store.old) (St.holds store.new) (St.log store.old)
        (St.log store.new) work.old work.new result }
    ensures plain { IfOk result IsPlain }
    ensures store { OnStore (St.faults store.old) (St.faults store.new) result }
    ensures more { work.old ≤ work.new }
{
    match init(alloc, store, params, work) {
        Ok(_opened) => {
            let line = created_line(alloc, params)?;
            done(alloc, &line)
        }
        Err(answer) => answer_of(alloc, &answer),
    }
}

/// Makes every file of a database anew.
pub(crate) fn answer_to_rebuild<St: Store>(
    alloc: Global,
    store: &mut St,
    opened: &mut Opened,
    work: &mut Work,
) -> Result<Answer, Stop>
    requires { opened.old.live ≡ true }
    ensures goes { (s : State) (files : Files) → HoldsState (St.holds store.old) opened.old s
        → St.holds store.old ≡ Some files
        → TurnOf (rebuilt_course s files) (St.holds store.old) (St.holds store.new) (St.log store.old)
        (St.log store.new) work.old work.new result }
    ensures plain { IfOk result IsPlain }
    ensures store { OnStore (St.faults store.old) (St.faults store.new) result }
    ensures more { work.old ≤ work.new }
{
    match rebuild(alloc, store, opened, work) {
        Ok(()) => {
            let tiles = tiles_in(alloc, opened)?;
            let line = rebuilt_line(alloc, tiles)?;
            done(alloc, &line)
        }
        Err(answer) => answer_of(alloc, &answer),
    }
}
