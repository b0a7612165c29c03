//! Cells that are added, replaced and removed.
ghost use Rattle.std.specs.Prelude.{◌≡◌, ◌≤◌, ◌+◌, [], ◌∷◌, None, Some, IsTrue, true};
ghost use Rattle.terrain_base.specs.declared.name.Key.TheVariants.{Manifest, Stage};
ghost use Rattle.terrain_base.specs.Step.{Write};
ghost use Rattle.terrain_base.specs.Run.{Ran};
ghost use Rattle.manifest_lines.specs.declared.state.State.TheVariants as state;
ghost use Rattle.db_manifest.specs.Manifest.{fits_rows, manifest_text};
ghost use Rattle.cell_mosaic.specs.Cells.{IsSoundCell};
ghost use Rattle.cell_mosaic.specs.Summaries.{summary_of};
ghost use Rattle.cell_mosaic.specs.Whole.{key_in};
ghost use Rattle.tile_deps.specs.Tiles.{touched};
ghost use Rattle.database.specs.declared.answer.EngineAnswer.{EngineAnswer};
ghost use Rattle.database.specs.Answer.{HasCause, OnlyStops};
ghost use Rattle.database.specs.Cells.{AreRows, row_keys, has_row};
ghost use Rattle.database.specs.Commands.{Add, Replace, Remove, PutCell, DropCell, after, calls, refusal_of};
ghost use Rattle.database.specs.State.{State};
ghost use Rattle.db_files.specs.Serving.{count_existing};
ghost use Rattle.db_engine.specs.Edited.{Refused, Turned, Edited, EditTrouble, Ends};
ghost use Rattle.db_engine.specs.Holding.{HoldsState, Stands};
ghost use Rattle.db_engine.specs.Rows.{HasRoom, refusal_by_rows};

use crate::Opened;
use crate::rows::{row_of, with_row, without_row};
use database::EngineAnswer;
use db_files::{close, has_row, manifest_bytes, row_key};
use db_manifest::ManifestState;
use dted_cell::CellBytes;
use std::alloc::Global;
use terrain_base::{CellKey, Name, Params, Store, Summary, Work};

// Puts the manifest with what is under way.
fn put_mark<S: Store>(
    alloc: Global,
    store: &mut S,
    params: &Params,
    state: ManifestState,
    rows: &[Summary],
) -> Result<(), EngineAnswer>
    requires rows { AreRows rows.now }
    requires fits { IsTrue (fits_rows state (row_keys rows.now)) }
    ensures ran { Ran (Write Manifest (manifest_text params.now state (row_keys rows.now)) ∷ [])
        (S.holds store.old) (S.log store.old) (S.holds store.new) (S.log store.new) result }
    ensures stop { OnlyStops result }
    ensures cause { HasCause (S.faults store.old) (S.faults store.new) result }
{
    let text = manifest_bytes(alloc, params, state, rows)?;
    store.put(&Name::manifest(), &text)?;
    Ok(())
}

// Puts a cell's bytes on the stage, and the manifest with its row that says that it is put.
fn put_marked<S: Store>(
    alloc: Global,
    store: &mut S,
    params: &Params,
    rows: &[Summary],
    key: CellKey,
    bytes: &[u8],
) -> Result<(), EngineAnswer>
    requires rows { AreRows rows.now }
    requires there { IsTrue (has_row rows.now key) }
    ensures ran { Ran (Write Stage bytes.now
        ∷ Write Manifest (manifest_text params.now (state.Put key) (row_keys rows.now)) ∷ [])
        (S.holds store.old) (S.log store.old) (S.holds store.new) (S.log store.new) result }
    ensures stop { OnlyStops result }
    ensures cause { HasCause (S.faults store.old) (S.faults store.new) result }
{
    store.put(&Name::stage(), bytes)?;
    put_mark(alloc, store, params, ManifestState::Put { key }, rows)
}

// Puts the bytes of a cell, new or in the place of the old one of its key, with its row.
fn put_row<S: Store>(
    alloc: Global,
    store: &mut S,
    opened: &mut Opened,
    row: Summary,
    key: CellKey,
    bytes: &[u8],
    work: &mut Work,
) -> Result<(), EngineAnswer>
    requires row { row ≡ summary_of key bytes.now }
    requires sound { IsSoundCell key bytes.now }
    requires room { HasRoom opened.old.rows key }
    ensures ran { (s : State) → HoldsState (S.holds store.old) opened.old s → Ran (calls (PutCell key bytes.now) s)
        (S.holds store.old) (S.log store.old) (S.holds store.new) (S.log store.new) result }
    ensures stop { (s : State) → HoldsState (S.holds store.old) opened.old s → OnlyStops result }
    ensures few { (s : State) → HoldsState (S.holds store.old) opened.old s → work.new
        ≤ work.old + count_existing (after (PutCell key bytes.now) s) (touched s.params.cap key.square) }
    ensures turned { Turned (PutCell key bytes.now) opened.old opened.new result }
    ensures trouble { EditTrouble (PutCell key bytes.now) opened.old.rows (S.holds store.old) result }
    ensures more { work.old ≤ work.new }
    ensures cause { HasCause (S.faults store.old) (S.faults store.new) result }
{
    opened.begin();
    let rows = with_row(alloc, opened.summaries(), row)?;
    let params = opened.params();
    put_marked(alloc, store, &params, &rows, key, bytes)?;
    close(alloc, store, &rows, &params, key, Some(bytes), work)?;
    opened.end(rows);
    Ok(())
}

// Puts a cell.
fn put_in<S: Store>(
    alloc: Global,
    store: &mut S,
    opened: &mut Opened,
    cell: &CellBytes,
    work: &mut Work,
) -> Result<(), EngineAnswer>
    requires room { HasRoom opened.old.rows (key_in cell.now) }
    ensures ran { (s : State) → HoldsState (S.holds store.old) opened.old s
        → Ran (calls (PutCell (key_in cell.now) cell.now) s)
        (S.holds store.old) (S.log store.old) (S.holds store.new) (S.log store.new) result }
    ensures stop { (s : State) → HoldsState (S.holds store.old) opened.old s → OnlyStops result }
    ensures few { (s : State) → HoldsState (S.holds store.old) opened.old s → work.new ≤ work.old
        + count_existing (after (PutCell (key_in cell.now) cell.now) s)
        (touched s.params.cap (key_in cell.now).square) }
    ensures turned { Turned (PutCell (key_in cell.now) cell.now) opened.old opened.new result }
    ensures trouble { EditTrouble (PutCell (key_in cell.now) cell.now) opened.old.rows (S.holds store.old) result }
    ensures sound { IsSoundCell (key_in cell.now) cell.now }
    ensures more { work.old ≤ work.new }
    ensures cause { HasCause (S.faults store.old) (S.faults store.new) result }
{
    let row = row_of(cell);
    put_row(alloc, store, opened, row, row_key(&row), cell.bytes(), work)
}

// Takes a cell away.
fn take_out<S: Store>(
    alloc: Global,
    store: &mut S,
    opened: &mut Opened,
    key: CellKey,
    work: &mut Work,
) -> Result<(), EngineAnswer>
    ensures ran { (s : State) → HoldsState (S.holds store.old) opened.old s → Ran (calls (DropCell key) s)
        (S.holds store.old) (S.log store.old) (S.holds store.new) (S.log store.new) result }
    ensures stop { (s : State) → HoldsState (S.holds store.old) opened.old s → OnlyStops result }
    ensures few { (s : State) → HoldsState (S.holds store.old) opened.old s
        → work.new ≤ work.old + count_existing (after (DropCell key) s) (touched s.params.cap key.square) }
    ensures turned { Turned (DropCell key) opened.old opened.new result }
    ensures trouble { EditTrouble (DropCell key) opened.old.rows (S.holds store.old) result }
    ensures more { work.old ≤ work.new }
    ensures cause { HasCause (S.faults store.old) (S.faults store.new) result }
{
    opened.begin();
    let rows = without_row(alloc, opened.summaries(), key)?;
    let params = opened.params();
    put_mark(alloc, store, &params, ManifestState::Drop { key }, &rows)?;
    close(alloc, store, &rows, &params, key, None, work)?;
    opened.end(rows);
    Ok(())
}

/// Adds a cell. K1 exactly where its key has one, and K3 exactly where it has none and there are 4096 cells: then
/// nothing is changed. After Ok its row is among the rows, after any other error the opened database is not live. Over
/// a store that holds the opened cells the changes are the command's, or a front of them where it stops. Over every
/// other store only trouble with the cell of a row may be answered besides; where the store tells its files, they show
/// it as the call begins.
pub fn add<S: Store>(
    alloc: Global,
    store: &mut S,
    opened: &mut Opened,
    cell: &CellBytes,
    work: &mut Work,
) -> Result<(), EngineAnswer>
    requires { opened.old.live ≡ true }
    ensures edited { (s : State) → HoldsState (S.holds store.old) opened.old s
        → Edited (Add (key_in cell.now) cell.now) s (S.holds store.old) (S.holds store.new)
        (S.log store.old) (S.log store.new) opened.new work.old work.new result }
    ensures ends { (s : State) → Stands (S.holds store.old) opened.old s
        → refusal_of (Add (key_in cell.now) cell.now) s ≡ None
        → Ends (PutCell (key_in cell.now) cell.now) s (S.holds store.new) opened.new result }
    ensures refused { (answer : EngineAnswer)
        → refusal_by_rows (Add (key_in cell.now) cell.now) opened.old.rows ≡ Some answer
        → Refused answer opened.old opened.new (S.holds store.old) (S.holds store.new)
        (S.log store.old) (S.log store.new) (S.faults store.old) (S.faults store.new) work.old work.new result }
    ensures turned { refusal_by_rows (Add (key_in cell.now) cell.now) opened.old.rows ≡ None
        → Turned (PutCell (key_in cell.now) cell.now) opened.old opened.new result }
    ensures trouble { refusal_by_rows (Add (key_in cell.now) cell.now) opened.old.rows ≡ None
        → EditTrouble (PutCell (key_in cell.now) cell.now) opened.old.rows (S.holds store.old) result }
    ensures more { work.old ≤ work.new }
    ensures cause { HasCause (S.faults store.old) (S.faults store.new) result }
{
    let key = row_key(&row_of(cell));
    let rows = opened.summaries();
    if has_row(rows, key) {
        return Err(EngineAnswer::CellPresent {
            square: key.square,
            level: key.level,
        });
    }
    if rows.len() >= 4096 {
        return Err(EngineAnswer::DatabaseFull);
    }
    put_in(alloc, store, opened, cell, work)
}

/// Puts a cell in the place of the one of its key; an equal cell is put too. K2 exactly where its key has none: then
/// nothing is changed. After Ok its row is in the place of the old one, after any other error the opened database is
/// not live. Over a store that holds the opened cells the changes are the command's, or a front of them where it stops.
/// Over every other store only trouble with the cell of a row may be answered besides, as `add` does.
pub fn replace<S: Store>(
    alloc: Global,
    store: &mut S,
    opened: &mut Opened,
    cell: &CellBytes,
    work: &mut Work,
) -> Result<(), EngineAnswer>
    requires { opened.old.live ≡ true }
    ensures edited { (s : State) → HoldsState (S.holds store.old) opened.old s
        → Edited (Replace (key_in cell.now) cell.now) s (S.holds store.old) (S.holds store.new)
        (S.log store.old) (S.log store.new) opened.new work.old work.new result }
    ensures ends { (s : State) → Stands (S.holds store.old) opened.old s
        → refusal_of (Replace (key_in cell.now) cell.now) s ≡ None
        → Ends (PutCell (key_in cell.now) cell.now) s (S.holds store.new) opened.new result }
    ensures refused { (answer : EngineAnswer)
        → refusal_by_rows (Replace (key_in cell.now) cell.now) opened.old.rows ≡ Some answer
        → Refused answer opened.old opened.new (S.holds store.old) (S.holds store.new)
        (S.log store.old) (S.log store.new) (S.faults store.old) (S.faults store.new) work.old work.new result }
    ensures turned { refusal_by_rows (Replace (key_in cell.now) cell.now) opened.old.rows ≡ None
        → Turned (PutCell (key_in cell.now) cell.now) opened.old opened.new result }
    ensures trouble { refusal_by_rows (Replace (key_in cell.now) cell.now) opened.old.rows ≡ None
        → EditTrouble (PutCell (key_in cell.now) cell.now) opened.old.rows (S.holds store.old) result }
    ensures more { work.old ≤ work.new }
    ensures cause { HasCause (S.faults store.old) (S.faults store.new) result }
{
    let key = row_key(&row_of(cell));
    if !has_row(opened.summaries(), key) {
        return Err(EngineAnswer::CellAbsent {
            square: key.square,
            level: key.level,
        });
    }
    put_in(alloc, store, opened, cell, work)
}

/// Takes the cell of a key away. K2 exactly where the key has none: then nothing is changed. After Ok its row is gone,
/// after any other error the opened database is not live. Over a store that holds the opened cells the changes are the
/// command's, or a front of them where it stops. Over every other store only trouble with the cell of a row may be
/// answered besides, as `add` does.
pub fn remove<S: Store>(
    alloc: Global,
    store: &mut S,
    opened: &mut Opened,
    key: CellKey,
    work: &mut Work,
) -> Result<(), EngineAnswer>
    requires { opened.old.live ≡ true }
    ensures edited { (s : State) → HoldsState (S.holds store.old) opened.old s
        → Edited (Remove key) s (S.holds store.old) (S.holds store.new)
        (S.log store.old) (S.log store.new) opened.new work.old work.new result }
    ensures ends { (s : State) → Stands (S.holds store.old) opened.old s → refusal_of (Remove key) s ≡ None
        → Ends (DropCell key) s (S.holds store.new) opened.new result }
    ensures refused { (answer : EngineAnswer) → refusal_by_rows (Remove key) opened.old.rows ≡ Some answer
        → Refused answer opened.old opened.new (S.holds store.old) (S.holds store.new)
        (S.log store.old) (S.log store.new) (S.faults store.old) (S.faults store.new) work.old work.new result }
    ensures turned { refusal_by_rows (Remove key) opened.old.rows ≡ None
        → Turned (DropCell key) opened.old opened.new result }
    ensures trouble { refusal_by_rows (Remove key) opened.old.rows ≡ None
        → EditTrouble (DropCell key) opened.old.rows (S.holds store.old) result }
    ensures more { work.old ≤ work.new }
    ensures cause { HasCause (S.faults store.old) (S.faults store.new) result }
{
    if !has_row(opened.summaries(), key) {
        return Err(EngineAnswer::CellAbsent {
            square: key.square,
            level: key.level,
        });
    }
    take_out(alloc, store, opened, key, work)
}
