//! The key and the cell that a generated number tells.
ghost use Rattle.std.specs.Prelude.{◌≡◌, None, IfOk, IfErr, IsErrOf, IsOk};
ghost use Rattle.dted_cell.specs.Refusal.{refusal_of};
ghost use Rattle.cell_mosaic.specs.Whole.{key_in};
ghost use Rattle.database.specs.declared.answer.EngineAnswer.TheVariants as engine;
ghost use Rattle.db_trial.specs.Generated.{generated_key, generated_cell};

use database::EngineAnswer;
use dted_cell::{CellBytes, CellTrouble};
use dted_write::generate;
use std::alloc::Global;
use terrain_base::{CellKey, CellLevel, Name, Square};

// One of nine squares round 0 degrees north and east, at level 0.
pub(crate) fn key_of(drawn: u64) -> CellKey
    ensures { result ≡ generated_key drawn }
{
    let place = drawn % 9;
    CellKey {
        square: Square {
            lat: 89 + (place / 3) as u16,
            lon: 179 + (place % 3) as u16,
        },
        level: CellLevel::Zero,
    }
}

// The cell that bytes are, kept under this key.
pub(crate) fn checked(key: CellKey, bytes: Vec<u8>) -> Result<CellBytes, EngineAnswer>
    ensures ok { IfOk result (λ cell. cell ≡ bytes.items) }
    ensures fine { refusal_of bytes.items ≡ None → IsOk result }
    ensures sure { ¬ IsErrOf result engine.StoreFault }
{
    match CellBytes::check(bytes) {
        Ok(cell) => Ok(cell),
        Err(other) => Err(EngineAnswer::Trouble(CellTrouble::Bad {
            name: Name::cell(key),
            refusal: other.refusal,
        })),
    }
}

// The cell that a generated number tells.
pub(crate) fn cell_of(alloc: Global, drawn: u64) -> Result<CellBytes, EngineAnswer>
    ensures cell { IfOk result (λ cell. cell ≡ generated_cell drawn) }
    ensures key { IfOk result (λ cell. key_in cell ≡ generated_key drawn) }
    ensures only { IfErr result (λ answer. answer ≡ engine.NoMemory) }
{
    let key = key_of(drawn);
    checked(key, generate(alloc, drawn, key.square, key.level)?)
}
