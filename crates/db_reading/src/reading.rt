// The manifest, then the cells row by row.
ghost use Rattle.std.specs.Prelude.{◌≡◌, Some, IfOk, IfErr, length};
ghost use Rattle.terrain_base.specs.Step.{Files};
ghost use Rattle.db_manifest.specs.Manifest as text;
ghost use Rattle.database.specs.Answer.{HasCause, IsStop};
ghost use Rattle.database.specs.Cells.{AreRows, row_keys};
ghost use Rattle.database.specs.State.{State, ReadsAs};
ghost use Rattle.db_reading.specs.ReadRow.{AreRead, IsRowsTrouble};
ghost use Rattle.db_reading.specs.Found.{Found, IsToldBy};

use crate::manifest::read_manifest;
use crate::row::read_row;
use database::EngineAnswer;
use db_manifest::ManifestState;
use std::alloc::Global;
use terrain_base::{CellKey, Params, Store, Summary};

/// What the files of a store were read as.
#[derive(Debug, Drop)]
pub struct Reading {
    /// The params of the database.
    pub params: Params,
    /// What is under way.
    pub mark: ManifestState,
    /// The cells in short, in the order of their keys.
    pub rows: Vec<Summary>,
}

// The cells of the rows in short, in order.
fn read_rows<S: Store>(
    alloc: Global,
    store: &mut S,
    mark: ManifestState,
    rows: &[CellKey],
) -> Result<Vec<Summary>, EngineAnswer>
    ensures read { IfOk result (λ cells. (files : Files) → S.holds store.old ≡ Some files
        → AreRead files mark rows.now (length rows.now) cells.items) }
    ensures keys { IfOk result (λ cells. row_keys cells.items ≡ rows.now) }
    ensures first { IfErr result (λ answer. (files : Files) → S.holds store.old ≡ Some files
        → IsRowsTrouble files mark rows.now answer) }
    ensures same { S.holds store.new ≡ S.holds store.old }
    ensures quiet { S.log store.new ≡ S.log store.old }
    ensures cause { HasCause (S.faults store.old) (S.faults store.new) result }
{
    let mut cells = Vec::new(alloc);
    for key in rows {
        let cell = read_row(alloc, store, mark, *key)?;
        cells.push(cell)?;
    }
    Ok(cells)
}

/// What the files of the store read as: params, what is under way, and the cells in short. Refused, but for a stop by
/// the store or for want of memory, exactly where the files read as no state: where the manifest is of an old version,
/// is not held (line 0) or is refused for a line, or where the first row whose cell is not held shows trouble. The
/// cell of an unfinished put is read from the stage. Each cell is fetched once, and at most one at a time is in
/// memory. Changes nothing held and adds nothing to the log, whatever it answers.
pub fn read_database<S: Store>(alloc: Global, store: &mut S) -> Result<Reading, EngineAnswer>
    ensures found { IfOk result (λ reading. (files : Files) → S.holds store.old ≡ Some files
        → Found files reading) }
    ensures rows { IfOk result (λ reading. AreRows reading.rows.items) }
    ensures refused { IfErr result (λ answer. (files : Files) → S.holds store.old ≡ Some files
        → IsToldBy files answer) }
    ensures sure { IfErr result (λ answer. (files : Files) (s : State) (mark : text.ManifestState)
        → S.holds store.old ≡ Some files → ReadsAs files s mark → IsStop answer) }
    ensures same { S.holds store.new ≡ S.holds store.old }
    ensures quiet { S.log store.new ≡ S.log store.old }
    ensures cause { HasCause (S.faults store.old) (S.faults store.new) result }
{
    let manifest = read_manifest(alloc, store)?;
    let mark = manifest.state();
    let rows = read_rows(alloc, store, mark, manifest.rows())?;
    Ok(Reading {
        params: manifest.params(),
        mark,
        rows,
    })
}
