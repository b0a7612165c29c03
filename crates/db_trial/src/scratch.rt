//! A database that is built from scratch over the cells of another one.
ghost use Rattle.std.specs.Prelude.{◌≡◌, ◌≤◌, ◌⊎◌, ℕ, List, true, OnOk, IsErrOf};
ghost use Rattle.terrain_base.specs.Cause.{Rose};
ghost use Rattle.database.specs.Answer.{OnlyStops};
ghost use Rattle.database.specs.Cells.{row_key};
ghost use Rattle.database.specs.Commands.{Add};
ghost use Rattle.database.specs.State.{State};
ghost use Rattle.database.specs.declared.answer.EngineAnswer.TheVariants as engine;
ghost use Rattle.db_engine.specs.Holding.{no_cells};
ghost use Rattle.db_trial.specs.Step.{Keeps, AreKept, Did, CanAdd, IsAddable, Built};

use crate::generated::checked;
use database::EngineAnswer;
use db_engine::{Opened, add};
use db_files::row_key;
use dted_cell::CellTrouble;
use std::alloc::Global;
use terrain_base::{Name, Store, Summary, Work};

// Adds the cell of a row to another database.
fn add_cell<S: Store>(
    alloc: Global,
    store: &mut S,
    row: &Summary,
    other: &mut S,
    grown: &mut Opened,
    work: &mut Work,
) -> Result<(), EngineAnswer>
    requires { IsAddable (S.holds store.old) row.now (S.holds other.old) grown.old }
    ensures did { (bytes : List ℕ) (t : State)
        → CanAdd (S.holds store.old) row.now bytes (S.holds other.old) grown.old t
        → OnOk result (Did (Add (row_key row.now) bytes) t (S.holds other.new) grown.new work.old work.new true) }
    ensures stop { OnlyStops result }
    ensures same { S.holds store.new ≡ S.holds store.old }
    ensures more { work.old ≤ work.new }
    ensures faults { (S.faults store.old ≤ S.faults store.new) × (S.faults other.old ≤ S.faults other.new) }
    ensures cause { IsErrOf result engine.StoreFault
        → Rose (S.faults store.old) (S.faults store.new) ⊎ Rose (S.faults other.old) (S.faults other.new) }
{
    let key = row_key(row);
    let name = Name::cell(key);
    let Some(bytes) = store.get(&name)? else {
        return Err(EngineAnswer::Trouble(CellTrouble::Lost { name }));
    };
    let cell = checked(key, bytes)?;
    add(alloc, other, grown, &cell, work)
}

// Adds the cells of an opened database to another one.
pub(crate) fn add_cells<S: Store>(
    alloc: Global,
    store: &mut S,
    opened: &Opened,
    other: &mut S,
    grown: &mut Opened,
    work: &mut Work,
) -> Result<(), EngineAnswer>
    requires { AreKept (S.holds store.old) opened.now (S.holds other.old) grown.old }
    ensures built { (s : State) → Keeps (S.holds store.old) opened.now s
        → Keeps (S.holds other.old) grown.old (no_cells s.params)
        → OnOk result (Built s (S.holds other.new) grown.new work.old work.new) }
    ensures stop { OnlyStops result }
    ensures same { S.holds store.new ≡ S.holds store.old }
    ensures more { work.old ≤ work.new }
    ensures faults { (S.faults store.old ≤ S.faults store.new) × (S.faults other.old ≤ S.faults other.new) }
    ensures cause { IsErrOf result engine.StoreFault
        → Rose (S.faults store.old) (S.faults store.new) ⊎ Rose (S.faults other.old) (S.faults other.new) }
{
    let rows = opened.summaries();
    for row in rows {
        add_cell(alloc, store, row, other, grown, work)?;
    }
    Ok(())
}
