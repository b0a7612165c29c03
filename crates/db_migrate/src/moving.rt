// Cells put under the names that they have in the present version.
ghost use Rattle.std.specs.Prelude.{◌≡◌, [], ◌∷◌};
ghost use Rattle.std.specs.FinMap.{get};
ghost use Rattle.terrain_base.specs.declared.name.Key.TheVariants.{Cell};
ghost use Rattle.terrain_base.specs.Overwrite.{step_to, steps_to};
ghost use Rattle.terrain_base.specs.Run.{Ran};
ghost use Rattle.terrain_base.specs.Step.{Files};
ghost use Rattle.database.specs.Answer.{HasCause, OnlyStops};
ghost use Rattle.database.specs.State.{State, file_of};
ghost use Rattle.db_migrate.specs.Moves.{Gives, Keeps, is_moved, moved, moving};
ghost use Rattle.db_old_reading.specs.OldReads.{OldMark};

use database::EngineAnswer;
use db_files::{put_cell, row_key};
use db_old_reading::{is_staged, kept_name, row_of};
use dted_cell::CellTrouble;
use manifest_lines::Version;
use old_manifest::OldRow;
use terrain_base::{CellKey, Store, Summary};

// Whether the row's cell is to be put: its bytes are under no name of the present version.
fn is_moved(staged: Option<OldRow>, row: &OldRow) -> bool
    ensures { result ≡ is_moved staged row.now }
{
    row.level.is_none() || is_staged(staged, row)
}

// Puts the cell under its key's name. Its bytes are fetched from where they are kept, so one cell is in memory.
fn put_kept<S: Store>(
    store: &mut S,
    version: Version,
    staged: Option<OldRow>,
    key: CellKey,
) -> Result<(), EngineAnswer>
    ensures ran { (s : State) → Gives (S.holds store.old) version staged key s
        → Ran (step_to (get s.cells key) (Cell key) ∷ [])
        (S.holds store.old) (S.log store.old) (S.holds store.new) (S.log store.new) result }
    ensures stop { (s : State) → Gives (S.holds store.old) version staged key s → OnlyStops result }
    ensures cause { HasCause (S.faults store.old) (S.faults store.new) result }
{
    let row = row_of(version, key);
    let name = kept_name(staged, &row);
    match store.get(&name)? {
        Some(bytes) => put_cell(store, key, Some(&bytes)),
        None => Err(EngineAnswer::Trouble(CellTrouble::Lost { name })),
    }
}

// The same, if it is to be put.
fn move_cell<S: Store>(
    store: &mut S,
    version: Version,
    staged: Option<OldRow>,
    key: CellKey,
) -> Result<(), EngineAnswer>
    ensures ran { (s : State) → Gives (S.holds store.old) version staged key s
        → Ran (steps_to (file_of s) (moved version staged (key ∷ [])))
        (S.holds store.old) (S.log store.old) (S.holds store.new) (S.log store.new) result }
    ensures stop { (s : State) → Gives (S.holds store.old) version staged key s → OnlyStops result }
    ensures cause { HasCause (S.faults store.old) (S.faults store.new) result }
{
    let row = row_of(version, key);
    if is_moved(staged, &row) {
        return put_kept(store, version, staged, key);
    }
    Ok(())
}

// Puts each of the rows' cells that are to be put.
pub(crate) fn move_cells<S: Store>(
    store: &mut S,
    version: Version,
    staged: Option<OldRow>,
    rows: &[Summary],
) -> Result<(), EngineAnswer>
    ensures ran { (files : Files) (s : State) (mark : OldMark)
        → Keeps (S.holds store.old) version staged rows.now files s mark → Ran (moving version mark s)
        (S.holds store.old) (S.log store.old) (S.holds store.new) (S.log store.new) result }
    ensures stop { (files : Files) (s : State) (mark : OldMark)
        → Keeps (S.holds store.old) version staged rows.now files s mark → OnlyStops result }
    ensures cause { HasCause (S.faults store.old) (S.faults store.new) result }
{
    for row in rows {
        move_cell(store, version, staged, row_key(row))?;
    }
    Ok(())
}
