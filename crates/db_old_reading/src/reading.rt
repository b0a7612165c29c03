// The manifest of an old database, then its cells row by row.
ghost use Rattle.std.specs.Prelude.{◌≡◌, Some, IfOk, IfErr, IsTrue, map};
ghost use Rattle.std.specs.List.{AllByRecursion};
ghost use Rattle.terrain_base.specs.Step.{Files};
ghost use Rattle.manifest_lines.specs.declared.version.Version as versions;
ghost use Rattle.old_manifest.specs.Rows.{old_suits};
ghost use Rattle.database.specs.Answer.{HasCause, IsStop};
ghost use Rattle.database.specs.Cells.{AreRows, row_keys};
ghost use Rattle.database.specs.State.{State};
ghost use Rattle.db_old_reading.specs.Kept.{row_of};
ghost use Rattle.db_old_reading.specs.OldReads.{OldMark, OldReads};
ghost use Rattle.db_old_reading.specs.Told.{AreRead, IsRowsTrouble, IsReadingOf, Found, IsToldBy};

use crate::manifest::read_manifest;
use crate::row::read_row;
use database::EngineAnswer;
use manifest_lines::Version;
use old_manifest::OldRow;
use std::alloc::Global;
use terrain_base::{Params, Store, Summary};

/// What the files of an old database were read as.
#[derive(Debug, Drop)]
pub struct OldReading {
    /// The version by which they were read, 1 or 2.
    pub version: Version,
    /// The params of the database.
    pub params: Params,
    /// The row that is being put, if one is: its cell is on the stage.
    pub staged: Option<OldRow>,
    /// The cells in short, in the order of their keys.
    pub rows: Vec<Summary>,
}

// The cells of the rows in short, in order. One at a time is in memory.
fn read_rows<S: Store>(
    alloc: Global,
    store: &mut S,
    version: Version,
    staged: Option<OldRow>,
    rows: &[OldRow],
) -> Result<Vec<Summary>, EngineAnswer>
    requires suits { AllByRecursion (λ row. IsTrue (old_suits version row.level)) rows.now }
    ensures read { IfOk result (λ cells. (files : Files) → S.holds store.old ≡ Some files
        → AreRead files version staged cells.items) }
    ensures rows { IfOk result (λ cells. map (row_of version) (row_keys cells.items) ≡ rows.now) }
    ensures first { IfErr result (λ answer. (files : Files) → S.holds store.old ≡ Some files
        → IsRowsTrouble files staged rows.now answer) }
    ensures same { S.holds store.new ≡ S.holds store.old }
    ensures quiet { S.log store.new ≡ S.log store.old }
    ensures cause { HasCause (S.faults store.old) (S.faults store.new) result }
{
    let mut cells = Vec::new(alloc);
    for row in rows {
        let cell = read_row(store, staged, row)?;
        cells.push(cell)?;
    }
    Ok(cells)
}

/// What the files of the store read as by an old version. Refused, but for a stop by the store or for want of memory,
/// exactly where they read as no state so: where the manifest is of the present version, is not held (line 0) or is
/// refused for a line, or where the first row whose cell is not held shows trouble. Each cell is fetched once, and one
/// at a time is in memory. Changes nothing held and adds nothing to the log, whatever it answers.
pub fn read_old<S: Store>(alloc: Global, store: &mut S) -> Result<OldReading, EngineAnswer>
    ensures found { IfOk result (λ old. (files : Files) → S.holds store.old ≡ Some files → Found files old) }
    ensures only { IfOk result (λ old. (files : Files) (v : versions.Version) (s : State) (mark : OldMark)
        → S.holds store.old ≡ Some files → OldReads files v s mark → IsReadingOf files v s mark old) }
    ensures rows { IfOk result (λ old. AreRows old.rows.items) }
    ensures refused { IfErr result (λ answer. (files : Files) → S.holds store.old ≡ Some files
        → IsToldBy files answer) }
    ensures sure { IfErr result (λ answer. (files : Files) (v : versions.Version) (s : State) (mark : OldMark)
        → S.holds store.old ≡ Some files → OldReads files v s mark → IsStop answer) }
    ensures same { S.holds store.new ≡ S.holds store.old }
    ensures quiet { S.log store.new ≡ S.log store.old }
    ensures cause { HasCause (S.faults store.old) (S.faults store.new) result }
{
    let dated = read_manifest(alloc, store)?;
    let version = dated.version;
    let staged = dated.manifest.staged();
    let rows = read_rows(alloc, store, version, staged, dated.manifest.rows())?;
    Ok(OldReading {
        version,
        params: dated.manifest.params(),
        staged,
        rows,
    })
}
