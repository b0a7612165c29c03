// The cell of a row of an old manifest.
ghost use Rattle.std.specs.Prelude.{◌≡◌, Some, IfOk, IfErr, IsTrue};
ghost use Rattle.terrain_base.specs.Step.{Files};
ghost use Rattle.dted_cell.specs.Trouble.{ShowsAt, name_of};
ghost use Rattle.cell_mosaic.specs.Cells.{IsSoundCell};
ghost use Rattle.cell_mosaic.specs.Summaries.{summary_of};
ghost use Rattle.manifest_lines.specs.declared.version.Version as versions;
ghost use Rattle.old_manifest.specs.Rows.{old_suits};
ghost use Rattle.database.specs.Answer.{HasCause};
ghost use Rattle.database.specs.Cells.{row_key};
ghost use Rattle.db_old_reading.specs.Kept.{row_of, key_of, is_staged, name_by, kept_under};
ghost use Rattle.db_old_reading.specs.Told.{IsRead, IsRowTrouble};

use database::EngineAnswer;
use dted_cell::{CellTrouble, CellView};
use manifest_lines::Version;
use old_manifest::OldRow;
use terrain_base::{CellKey, CellLevel, Name, Square, Store, Summary};

/// The row of a key in a version: its square alone in version 1, and its level with it from version 2 on.
pub fn row_of(version: Version, key: CellKey) -> OldRow
    ensures { result ≡ row_of version key }
{
    match version {
        Version::One => OldRow {
            square: key.square,
            level: None,
        },
        Version::Two | Version::Three => OldRow {
            square: key.square,
            level: Some(key.level),
        },
    }
}

/// Whether the row is the one that is put.
pub fn is_staged(staged: Option<OldRow>, row: &OldRow) -> bool
    ensures { result ≡ is_staged staged row.now }
{
    match staged {
        Some(put) => put.is(row),
        None => false,
    }
}

// The name of a cell by its square and the level that its row has.
fn name_by(level: Option<CellLevel>, square: Square) -> Name
    ensures { result ≡ name_by level square }
{
    match level {
        Some(level) => Name::cell(CellKey { square, level }),
        None => Name::old_cell(square),
    }
}

/// The name that the cell of a row is read from: the stage for one that is being put.
pub fn kept_name(staged: Option<OldRow>, row: &OldRow) -> Name
    ensures { result ≡ kept_under staged row.now }
{
    if is_staged(staged, row) {
        return Name::stage();
    }
    name_by(row.level, row.square)
}

// Whether the squares are one.
fn is_square(a: Square, b: Square) -> bool
    ensures yes { IsTrue result → a ≡ b }
    ensures no { a ≡ b → IsTrue result }
{
    a.lat == b.lat && a.lon == b.lon
}

// The cell in short, where the bytes under the name are a cell of the row's square, and of its level if it has one.
fn judge(row: &OldRow, name: Name, bytes: &[u8]) -> Result<Summary, CellTrouble>
    ensures sound { IfOk result (λ cell. IsSoundCell (key_of row.now bytes.now) bytes.now) }
    ensures value { IfOk result (λ cell. cell ≡ summary_of (key_of row.now bytes.now) bytes.now) }
    ensures name { IfErr result (λ trouble. name_of trouble ≡ name) }
    ensures shown { IfErr result (ShowsAt (key_of row.now bytes.now) (Some bytes.now)) }
{
    let view = match CellView::read(bytes) {
        Ok(view) => view,
        Err(refusal) => return Err(CellTrouble::Bad { name, refusal }),
    };
    let found = CellKey {
        square: view.square(),
        level: view.level(),
    };
    let key = CellKey {
        square: row.square,
        level: row.level.unwrap_or(found.level),
    };
    if !is_square(found.square, key.square) {
        return Err(CellTrouble::Elsewhere {
            name,
            found: found.square,
        });
    }
    if !found.is(&key) {
        return Err(CellTrouble::Changed {
            name,
            opened: key.level,
            found: found.level,
        });
    }
    Ok(Summary {
        square: key.square,
        level: key.level,
        extremes: view.extremes(),
    })
}

// The cell of a row in short. It is fetched once, and dropped.
pub(crate) fn read_row<S: Store>(
    store: &mut S,
    staged: Option<OldRow>,
    row: &OldRow,
) -> Result<Summary, EngineAnswer>
    ensures read { IfOk result (λ cell. (files : Files) → S.holds store.old ≡ Some files
        → IsRead files staged row.now cell) }
    ensures row { IfOk result (λ cell. (version : versions.Version)
        → IsTrue (old_suits version row.now.level) → row.now ≡ row_of version (row_key cell)) }
    ensures shown { IfErr result (λ answer. (files : Files) → S.holds store.old ≡ Some files
        → IsRowTrouble files staged row.now answer) }
    ensures same { S.holds store.new ≡ S.holds store.old }
    ensures quiet { S.log store.new ≡ S.log store.old }
    ensures cause { HasCause (S.faults store.old) (S.faults store.new) result }
{
    let name = kept_name(staged, row);
    match store.get(&name)? {
        Some(bytes) => match judge(row, name, &bytes) {
            Ok(cell) => Ok(cell),
            Err(trouble) => Err(EngineAnswer::Trouble(trouble)),
        },
        None => Err(EngineAnswer::Trouble(CellTrouble::Lost { name })),
    }
}
