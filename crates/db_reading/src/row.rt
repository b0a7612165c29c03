// The cell of a row.
ghost use Rattle.std.specs.Prelude.{◌≡◌, ◌<◌, ℕ, List, slice_index, Some, IfOk, IfErr, IsTrue};
ghost use Rattle.terrain_base.specs.Step.{Files};
ghost use Rattle.dted_cell.specs.Facts.{AreFacts};
ghost use Rattle.dted_cell.specs.Trouble.{ShowsAt, name_of};
ghost use Rattle.cell_mosaic.specs.Cells.{IsSoundCell};
ghost use Rattle.cell_mosaic.specs.Summaries.{summary_of};
ghost use Rattle.database.specs.Answer.{HasCause};
ghost use Rattle.database.specs.Cells.{row_key};
ghost use Rattle.database.specs.State.{kept_under};
ghost use Rattle.db_reading.specs.ReadRow.{IsRead, IsRowTrouble};

use database::EngineAnswer;
use db_manifest::ManifestState;
use dted_cell::{CellFacts, CellTrouble, CellView, FactsReading};
use std::alloc::Global;
use terrain_base::{CellKey, Name, ReadBy, Square, Store, Summary};

// The name that the cell of a row is read from: the stage for one that is being put.
fn kept_name(mark: ManifestState, key: CellKey) -> Name
    ensures { result ≡ kept_under mark key }
{
    match mark {
        ManifestState::Put { key: other } => {
            if key == other {
                Name::stage()
            } else {
                Name::cell(key)
            }
        }
        ManifestState::Closed | ManifestState::Drop { .. } | ManifestState::Rebuild => {
            Name::cell(key)
        }
    }
}

// Whether the squares are one.
fn is_square(a: Square, b: Square) -> bool
    ensures yes { IsTrue result → a ≡ b }
    ensures no { a ≡ b → IsTrue result }
{
    a.lat == b.lat && a.lon == b.lon
}

// The cell in short, where it is one of the key.
fn judge_facts(key: CellKey, name: Name, facts: &CellFacts) -> Result<Summary, CellTrouble>
    ensures sound { (bytes : List ℕ) → ((k : ℕ) → slice_index bytes k < 256) → AreFacts bytes facts.now
        → IfOk result (λ cell. IsSoundCell key bytes) }
    ensures value { (bytes : List ℕ) → AreFacts bytes facts.now → IfOk result (λ cell. cell ≡ summary_of key bytes) }
    ensures key { IfOk result (λ cell. row_key cell ≡ key) }
    ensures name { IfErr result (λ trouble. name_of trouble ≡ name) }
    ensures shown { (bytes : List ℕ) → AreFacts bytes facts.now → IfErr result (ShowsAt key (Some bytes)) }
{
    let found = CellKey {
        square: facts.square,
        level: facts.level,
    };
    if !is_square(found.square, key.square) {
        return Err(CellTrouble::Elsewhere {
            name,
            found: found.square,
        });
    }
    if !found.is(&key) {
        return Err(CellTrouble::Changed {
            name,
            opened: key.level,
            found: found.level,
        });
    }
    Ok(Summary {
        square: key.square,
        level: key.level,
        extremes: facts.extremes,
    })
}

// The cell in short, where the bytes under the name are a cell of the key.
fn judge(key: CellKey, name: Name, bytes: &[u8]) -> Result<Summary, CellTrouble>
    ensures sound { IfOk result (λ cell. IsSoundCell key bytes.now) }
    ensures value { IfOk result (λ cell. cell ≡ summary_of key bytes.now) }
    ensures key { IfOk result (λ cell. row_key cell ≡ key) }
    ensures name { IfErr result (λ trouble. name_of trouble ≡ name) }
    ensures shown { IfErr result (ShowsAt key (Some bytes.now)) }
{
    match CellView::read(bytes) {
        Ok(view) => judge_facts(key, name, &view.facts()),
        Err(refusal) => Err(CellTrouble::Bad { name, refusal }),
    }
}

// The cell of a row in short. It is fetched once, whole only where a pass over it does not do.
pub(crate) fn read_row<S: Store>(
    alloc: Global,
    store: &mut S,
    mark: ManifestState,
    key: CellKey,
) -> Result<Summary, EngineAnswer>
    ensures kept { IfOk result (λ cell. (files : Files) → S.holds store.old ≡ Some files
        → IsRead files mark key cell) }
    ensures key { IfOk result (λ cell. row_key cell ≡ key) }
    ensures shown { IfErr result (λ answer. (files : Files) → S.holds store.old ≡ Some files
        → IsRowTrouble files mark key answer) }
    ensures same { S.holds store.new ≡ S.holds store.old }
    ensures quiet { S.log store.new ≡ S.log store.old }
    ensures cause { HasCause (S.faults store.old) (S.faults store.new) result }
{
    let name = kept_name(mark, key);
    let judged = match store.get_by(&name, &FactsReading { alloc })? {
        Some(ReadBy::Found(facts)) => judge_facts(key, name, &facts),
        Some(ReadBy::Whole(bytes)) => judge(key, name, &bytes),
        None => Err(CellTrouble::Lost { name }),
    };
    match judged {
        Ok(cell) => Ok(cell),
        Err(trouble) => Err(EngineAnswer::Trouble(trouble)),
    }
}
