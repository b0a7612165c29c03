//! A trial: what generated commands leave, beside what is built from scratch over the same cells.
ghost use Rattle.std.specs.Prelude.{◌≡◌, ◌≤◌, ◌+◌, ◌⊎◌, Some, IfOk, IfErr, OnOk, IsErrOf};
ghost use Rattle.std.specs.FinMap as map;
ghost use Rattle.terrain_base.specs.Cause.{Rose};
ghost use Rattle.database.specs.Answer.{HasCause, OnlyStops};
ghost use Rattle.database.specs.Commands.{existing};
ghost use Rattle.database.specs.declared.answer.EngineAnswer.TheVariants as engine;
ghost use Rattle.db_engine.specs.Holding.{no_cells};
ghost use Rattle.db_files.specs.Serving.{count_existing};
ghost use Rattle.db_trial.specs.Step.{Keeps};
ghost use Rattle.db_trial.specs.Trial.{IsTrial, trial_tiles};

use crate::commands::do_all;
use crate::scratch::add_cells;
use crate::total::bytes_held;
use availability::tile_count;
use database::EngineAnswer;
use db_engine::{Opened, init};
use db_report::TrialReport;
use std::alloc::Global;
use terrain_base::{Params, Store, SureStore, Work};

// The deepest level of a trial's database.
const TRIAL_CAP: u8 = 9;

// Begins a database of no cells in a store that holds nothing.
fn begin<S: Store>(
    alloc: Global,
    store: &mut S,
    params: Params,
    work: &mut Work,
) -> Result<Opened, EngineAnswer>
    requires { S.holds store.old ≡ Some map.empty }
    ensures keeps { IfOk result (λ o. Keeps (S.holds store.new) o (no_cells params)) }
    ensures stop { OnlyStops result }
    ensures few { work.new ≤ work.old + count_existing (no_cells params) (existing (no_cells params)) }
    ensures more { work.old ≤ work.new }
    ensures cause { HasCause (S.faults store.old) (S.faults store.new) result }
{
    init(alloc, store, params, work)
}

// Runs the commands over one store, and builds the database that they leave from scratch in another one.
fn compare<S: Store>(
    alloc: Global,
    store: &mut S,
    scratch: &mut S,
    count: u8,
    number: u64,
    work: &mut Work,
) -> Result<TrialReport, EngineAnswer>
    requires store { S.holds store.old ≡ Some map.empty }
    requires scratch { S.holds scratch.old ≡ Some map.empty }
    ensures trial { IfOk result (IsTrial count number) }
    ensures few { OnOk result (work.new ≤ work.old + trial_tiles count number) }
    ensures stop { OnlyStops result }
    ensures more { work.old ≤ work.new }
    ensures cause { IsErrOf result engine.StoreFault
        → Rose (S.faults store.old) (S.faults store.new) ⊎ Rose (S.faults scratch.old) (S.faults scratch.new) }
{
    let params = Params {
        cap: TRIAL_CAP,
        fill: 0,
    };
    let mut opened = begin(alloc, store, params, work)?;
    let counts = do_all(alloc, store, &mut opened, count, number, work)?;
    let mut grown = begin(alloc, scratch, params, work)?;
    add_cells(alloc, store, &opened, scratch, &mut grown, work)?;
    Ok(TrialReport {
        count,
        number,
        accepted: counts.accepted,
        refused: counts.refused,
        cells: opened.summaries().len() as u64,
        tiles: tile_count(alloc, opened.summaries(), TRIAL_CAP)?,
        bytes: bytes_held(store)?,
        scratch: bytes_held(scratch)?,
    })
}

/// Runs `count` generated commands over a database in memory, to level 9 and of fill 0, and builds the database that
/// they leave from scratch in a second one. The number `number + k`, modulo 2^64 and mixed, tells the command `k`: two
/// of four add a cell, one replaces and one removes it, in one of nine squares. Gives how many were accepted and how
/// many refused, how many cells and tiles there are at the end, and the sum of the lengths of all files in each of the
/// two databases: the same number. `work` counts the tiles that are made. Of errors it answers `NoMemory` alone.
pub fn run_trial(
    alloc: Global,
    count: u8,
    number: u64,
    work: &mut Work,
) -> Result<TrialReport, EngineAnswer>
    ensures trial { IfOk result (IsTrial count number) }
    ensures few { OnOk result (work.new ≤ work.old + trial_tiles count number) }
    ensures only { IfErr result (λ answer. answer ≡ engine.NoMemory) }
    ensures more { work.old ≤ work.new }
{
    let mut store = SureStore::new(alloc);
    let mut scratch = SureStore::new(alloc);
    compare(alloc, &mut store, &mut scratch, count, number, work)
}
