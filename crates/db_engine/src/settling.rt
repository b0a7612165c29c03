//! Opening a database, and finishing what was under way.
ghost use Rattle.std.specs.Prelude.{◌≡◌, ◌≤◌, ◌+◌, Some, IfOk, IfErr, true};
ghost use Rattle.terrain_base.specs.Step.{Files};
ghost use Rattle.terrain_base.specs.Run.{Ran};
ghost use Rattle.db_manifest.specs.Manifest as text;
ghost use Rattle.tile_deps.specs.Tiles.{touched};
ghost use Rattle.database.specs.Answer.{HasCause, OnlyStops};
ghost use Rattle.database.specs.Cells.{AreRows};
ghost use Rattle.database.specs.Commands.{closing, settling};
ghost use Rattle.database.specs.Opening.{Opening, OpensAs};
ghost use Rattle.database.specs.State.{State, ReadsAs, StandsFor};
ghost use Rattle.db_files.specs.Serving.{count_existing};
ghost use Rattle.db_reading.specs.Found.{Known};
ghost use Rattle.db_engine.specs.Settling.{Staged, Settles, LeavesSettled, IsOpened, IsRefusal, IsLeft, count_settling};

use crate::Opened;
use database::EngineAnswer;
use db_files::{close, refill};
use db_manifest::ManifestState;
use db_reading::{Reading, read_database};
use dted_cell::CellTrouble;
use std::alloc::Global;
use terrain_base::{CellKey, Name, Params, Store, Summary, Work};

// Finishes the put of a cell whose bytes are on the stage.
fn put_staged<S: Store>(
    alloc: Global,
    store: &mut S,
    rows: &[Summary],
    params: &Params,
    key: CellKey,
    work: &mut Work,
) -> Result<(), EngineAnswer>
    requires { AreRows rows.now }
    ensures ran { (s : State) → Staged (S.holds store.old) params.now rows.now key s → Ran (closing key s)
        (S.holds store.old) (S.log store.old) (S.holds store.new) (S.log store.new) result }
    ensures stop { (s : State) → Staged (S.holds store.old) params.now rows.now key s → OnlyStops result }
    ensures few { (s : State) → Staged (S.holds store.old) params.now rows.now key s
        → work.new ≤ work.old + count_existing s (touched s.params.cap key.square) }
    ensures more { work.old ≤ work.new }
    ensures cause { HasCause (S.faults store.old) (S.faults store.new) result }
{
    let name = Name::stage();
    match store.get(&name)? {
        Some(bytes) => close(alloc, store, rows, params, key, Some(&bytes), work),
        None => Err(EngineAnswer::Trouble(CellTrouble::Lost { name })),
    }
}

// Finishes what was under way.
fn finish<S: Store>(
    alloc: Global,
    store: &mut S,
    reading: &Reading,
    work: &mut Work,
) -> Result<(), EngineAnswer>
    requires { AreRows reading.now.rows.items }
    ensures ran { (s : State) (known : Known (S.holds store.old) reading.now s)
        → Ran (settling reading.now.mark known.files s)
        (S.holds store.old) (S.log store.old) (S.holds store.new) (S.log store.new) result }
    ensures stop { (s : State) → Known (S.holds store.old) reading.now s → OnlyStops result }
    ensures few { (s : State) → Known (S.holds store.old) reading.now s
        → work.new ≤ work.old + count_settling reading.now.mark s }
    ensures more { work.old ≤ work.new }
    ensures cause { HasCause (S.faults store.old) (S.faults store.new) result }
{
    let params = &reading.params;
    match reading.mark {
        ManifestState::Closed => {
            store.delete(&Name::stage())?;
            Ok(())
        }
        ManifestState::Put { key } => put_staged(alloc, store, &reading.rows, params, key, work),
        ManifestState::Drop { key } => {
            close(alloc, store, &reading.rows, params, key, None, work)
        }
        ManifestState::Rebuild => refill(alloc, store, &reading.rows, params, work),
    }
}

/// Opens a database, and finishes what was under way. K12, K5, and K6 to K9 exactly where the files that are held open
/// so: then nothing is changed. Where they read as a state, the changes are those of its settling, or a front of them
/// where it stops by the store or for want of memory. After Ok the files are settled; after a stop they read as the
/// state still, and stand for it where they stood for it.
pub fn settle<S: Store>(
    alloc: Global,
    store: &mut S,
    work: &mut Work,
) -> Result<Opened, EngineAnswer>
    ensures live { IfOk result (λ o. o.live ≡ true) }
    ensures opened { IfOk result (λ o. (files : Files) → S.holds store.old ≡ Some files
        → IsOpened files (S.holds store.new) o) }
    ensures refused { IfErr result (λ answer. (files : Files) → S.holds store.old ≡ Some files
        → IsRefusal answer files (S.holds store.new) (S.log store.old) (S.log store.new) work.old work.new) }
    ensures left { (files : Files) (opening : Opening) → S.holds store.old ≡ Some files → OpensAs files opening
        → IsLeft opening files (S.holds store.new) (S.log store.old) (S.log store.new) work.old work.new }
    ensures stop { (files : Files) (s : State) (mark : text.ManifestState) → S.holds store.old ≡ Some files
        → ReadsAs files s mark → OnlyStops result }
    ensures ran { (files : Files) (s : State) (mark : text.ManifestState) → S.holds store.old ≡ Some files
        → ReadsAs files s mark → Ran (settling mark files s)
        (S.holds store.old) (S.log store.old) (S.holds store.new) (S.log store.new) result }
    ensures settles { (files : Files) (s : State) → S.holds store.old ≡ Some files → StandsFor files s
        → Settles s (S.holds store.new) result }
    ensures leaves { (files : Files) (s : State) (mark : text.ManifestState) → S.holds store.old ≡ Some files
        → ReadsAs files s mark → LeavesSettled mark s files (S.holds store.new) result }
    ensures few { (files : Files) (s : State) (mark : text.ManifestState) → S.holds store.old ≡ Some files
        → ReadsAs files s mark → work.new ≤ work.old + count_settling mark s }
    ensures more { work.old ≤ work.new }
    ensures cause { HasCause (S.faults store.old) (S.faults store.new) result }
{
    let reading = read_database(alloc, store)?;
    finish(alloc, store, &reading, work)?;
    Ok(Opened::of(reading.params, reading.rows))
}
