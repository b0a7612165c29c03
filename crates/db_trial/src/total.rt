//! How many bytes a store holds.
ghost use Rattle.std.specs.Prelude.{◌≡◌, ◌+◌, Some, IfOk};
ghost use Rattle.std.specs.FinMap as map;
ghost use Rattle.terrain_base.specs.Step.{Files};
ghost use Rattle.database.specs.Answer.{HasCause, OnlyStops};
ghost use Rattle.db_trial.specs.Trial.{bytes_in, length_of};

use database::EngineAnswer;
use terrain_base::{Name, Store};

// A total with the length of a file. One that 64 bits do not hold is answered as want of memory: a store in memory
// cannot get there.
fn with_length<S: Store>(store: &mut S, name: &Name, total: u64) -> Result<u64, EngineAnswer>
    ensures sum { IfOk result (λ sum. (files : Files) → S.holds store.old ≡ Some files
        → sum ≡ total + length_of (map.get files name.now)) }
    ensures stop { OnlyStops result }
    ensures same { S.holds store.new ≡ S.holds store.old }
    ensures cause { HasCause (S.faults store.old) (S.faults store.new) result }
{
    let Some(bytes) = store.get(name)? else {
        return Ok(total);
    };
    let Some(sum) = total.checked_add(bytes.len() as u64) else {
        return Err(EngineAnswer::NoMemory);
    };
    Ok(sum)
}

// The sum of the lengths of all files.
pub(crate) fn bytes_held<S: Store>(store: &mut S) -> Result<u64, EngineAnswer>
    ensures total { IfOk result (λ total. (files : Files) → S.holds store.old ≡ Some files → total ≡ bytes_in files) }
    ensures stop { OnlyStops result }
    ensures same { S.holds store.new ≡ S.holds store.old }
    ensures cause { HasCause (S.faults store.old) (S.faults store.new) result }
{
    let mut total = 0u64;
    for name in &store.names()? {
        total = with_length(store, name, total)?;
    }
    Ok(total)
}
