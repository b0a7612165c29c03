//! Making a database, and making it anew.
ghost use Rattle.std.specs.Prelude.{◌≡◌, ◌≢◌, ◌≤◌, ◌+◌, [], Some, IfOk, IfErr, OnOk, OnErr, true, false};
ghost use Rattle.std.specs.FinMap as map;
ghost use Rattle.terrain_base.specs.Step.{Files};
ghost use Rattle.terrain_base.specs.Run.{Ran};
ghost use Rattle.database.specs.Answer.{HasCause, OnlyStops};
ghost use Rattle.database.specs.Commands.{existing, rebuild_calls};
ghost use Rattle.database.specs.State.{State};
ghost use Rattle.db_files.specs.Serving.{count_existing};
ghost use Rattle.db_files.specs.Trouble.{OnlyStopsOrRowTrouble};
ghost use Rattle.db_engine.specs.Holding.{HoldsState, Stands, IsFull, IsStopOrFull, Starts, no_cells};
ghost use Rattle.db_engine.specs.Opened.{contents_of};
ghost use Rattle.db_engine.specs.Settling.{IsIdle, Settles, Rebuilds};

use crate::Opened;
use database::EngineAnswer;
use db_files::restart;
use std::alloc::Global;
use terrain_base::{Params, Store, Work};

/// Makes a database of no cells in a store that holds nothing. K4 exactly where a name is held, with the least: then
/// nothing is changed. After a stop by the store or for want of memory nothing is held, or what is stands for no cells.
/// Over every store nothing else is answered in place of Ok.
pub fn init<S: Store>(
    alloc: Global,
    store: &mut S,
    params: Params,
    work: &mut Work,
) -> Result<Opened, EngineAnswer>
    ensures opened { IfOk result (λ o. o ≡ contents_of params [] true) }
    ensures refused { IfErr result (λ answer. (files : Files) → S.holds store.old ≡ Some files
        → IsFull answer files (S.holds store.new) (S.log store.old) (S.log store.new)) }
    ensures kinds { IfErr result IsStopOrFull }
    ensures empty { OnOk result ((files : Files) → S.holds store.old ≡ Some files → map.keys files ≡ []) }
    ensures ran { (files : Files) → S.holds store.old ≡ Some files → map.keys files ≡ []
        → Ran (rebuild_calls files (no_cells params))
        (S.holds store.old) (S.log store.old) (S.holds store.new) (S.log store.new) result }
    ensures starts { (files : Files) → S.holds store.old ≡ Some files → map.keys files ≡ []
        → Starts (no_cells params) (S.holds store.new) result }
    ensures few { (files : Files) → S.holds store.old ≡ Some files → map.keys files ≡ []
        → work.new ≤ work.old + count_existing (no_cells params) (existing (no_cells params)) }
    ensures full { (files : Files) → S.holds store.old ≡ Some files → map.keys files ≢ []
        → IsIdle files (S.holds store.new) (S.log store.old) (S.log store.new) work.old work.new }
    ensures more { work.old ≤ work.new }
    ensures cause { HasCause (S.faults store.old) (S.faults store.new) result }
{
    let names = store.names()?;
    if names.len() > 0 {
        return Err(EngineAnswer::NotEmpty { name: names[0] });
    }
    let rows = Vec::new(alloc);
    restart(alloc, store, &rows, &params, work)?;
    Ok(Opened::of(params, rows))
}

/// Makes every tile anew, and deletes what is no file of the database. Nothing is refused: after an error the opened
/// database is not live. Over a store that holds the opened cells the changes are those of a rebuilding, or a front of
/// them where it stops by the store or for want of memory. After Ok the store stands for the cells, after a stop it
/// holds them still. Over every other store only trouble with the cell of a row may be answered besides; where the
/// store tells its files, they show it as the call begins.
pub fn rebuild<S: Store>(
    alloc: Global,
    store: &mut S,
    opened: &mut Opened,
    work: &mut Work,
) -> Result<(), EngineAnswer>
    requires { opened.old.live ≡ true }
    ensures ran { (s : State) (h : HoldsState (S.holds store.old) opened.old s) → Ran (rebuild_calls h.files s)
        (S.holds store.old) (S.log store.old) (S.holds store.new) (S.log store.new) result }
    ensures rebuilds { (s : State) → HoldsState (S.holds store.old) opened.old s
        → Rebuilds s (S.holds store.new) opened.new result }
    ensures settles { (s : State) → Stands (S.holds store.old) opened.old s → Settles s (S.holds store.new) result }
    ensures stop { (s : State) → HoldsState (S.holds store.old) opened.old s → OnlyStops result }
    ensures trouble { OnlyStopsOrRowTrouble opened.old.rows (S.holds store.old) result }
    ensures few { (s : State) → HoldsState (S.holds store.old) opened.old s
        → work.new ≤ work.old + count_existing s (existing s) }
    ensures ok { OnOk result (opened.new ≡ opened.old) }
    ensures dead { OnErr result (opened.new.live ≡ false) }
    ensures more { work.old ≤ work.new }
    ensures cause { HasCause (S.faults store.old) (S.faults store.new) result }
{
    opened.begin();
    let params = opened.params();
    restart(alloc, store, opened.summaries(), &params, work)?;
    opened.go_on();
    Ok(())
}
