//! Generated commands, one after the other.
ghost use Rattle.std.specs.Prelude.{◌≡◌, ◌≤◌, IfOk};
ghost use Rattle.database.specs.Answer.{HasCause, OnlyStops};
ghost use Rattle.database.specs.State.{State};
ghost use Rattle.db_trial.specs.Generated.{generated, generated_list};
ghost use Rattle.db_trial.specs.Step.{Keeps, IsKept, Did, DidAll, told_of};

use crate::generated::{cell_of, key_of};
use database::EngineAnswer;
use db_engine::{Opened, add, remove, replace};
use dted_write::mix;
use std::alloc::Global;
use terrain_base::{Store, Work};

// How many commands were accepted, and how many refused.
#[derive(Clone, Copy, Debug)]
pub(crate) struct Counts {
    pub(crate) accepted: u64,
    pub(crate) refused: u64,
}

// Whether a command was accepted: a refusal is no stop.
fn told(done: Result<(), EngineAnswer>) -> Result<bool, EngineAnswer>
    ensures { result ≡ told_of done }
{
    match done {
        Ok(()) => Ok(true),
        Err(
            EngineAnswer::CellPresent { .. }
            | EngineAnswer::CellAbsent { .. }
            | EngineAnswer::DatabaseFull,
        ) => Ok(false),
        Err(answer) => Err(answer),
    }
}

// Does the command that a generated number tells, and gives whether it was accepted.
fn do_generated<S: Store>(
    alloc: Global,
    store: &mut S,
    opened: &mut Opened,
    drawn: u64,
    work: &mut Work,
) -> Result<bool, EngineAnswer>
    requires { IsKept (S.holds store.old) opened.old }
    ensures did { (s : State) → Keeps (S.holds store.old) opened.old s
        → IfOk result (Did (generated drawn) s (S.holds store.new) opened.new work.old work.new) }
    ensures stop { OnlyStops result }
    ensures more { work.old ≤ work.new }
    ensures cause { HasCause (S.faults store.old) (S.faults store.new) result }
{
    let kind = drawn / 9 % 4;
    if kind == 3 {
        return told(remove(alloc, store, opened, key_of(drawn), work));
    }
    let cell = cell_of(alloc, drawn)?;
    if kind == 2 {
        return told(replace(alloc, store, opened, &cell, work));
    }
    told(add(alloc, store, opened, &cell, work))
}

// Does so many generated commands.
pub(crate) fn do_all<S: Store>(
    alloc: Global,
    store: &mut S,
    opened: &mut Opened,
    count: u8,
    number: u64,
    work: &mut Work,
) -> Result<Counts, EngineAnswer>
    requires { IsKept (S.holds store.old) opened.old }
    ensures did { (s : State) → Keeps (S.holds store.old) opened.old s
        → IfOk result (λ counts. DidAll (generated_list count number) s (S.holds store.new) opened.new
        work.old work.new counts.accepted counts.refused) }
    ensures stop { OnlyStops result }
    ensures more { work.old ≤ work.new }
    ensures cause { HasCause (S.faults store.old) (S.faults store.new) result }
{
    let mut accepted = 0u64;
    let mut refused = 0u64;
    for k in 0..count {
        let drawn = mix(number.wrapping_add(u64::from(k)));
        if do_generated(alloc, store, opened, drawn, work)? {
            accepted += 1;
        } else {
            refused += 1;
        }
    }
    Ok(Counts { accepted, refused })
}
