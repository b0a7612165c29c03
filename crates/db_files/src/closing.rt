// The files that a command changes, once its mark is in the store.
ghost use Rattle.std.specs.Prelude.{◌≡◌, ◌≤◌, ◌+◌, [], ◌∷◌, Option};
ghost use Rattle.terrain_base.specs.declared.name.Key.TheVariants.{Cell};
ghost use Rattle.terrain_base.specs.Run.{Ran};
ghost use Rattle.terrain_base.specs.Step.{held_after};
ghost use Rattle.terrain_base.specs.Overwrite.{step_to, steps_to};
ghost use Rattle.tile_deps.specs.Tiles.{touched};
ghost use Rattle.cell_mosaic.specs.Summaries.{summaries_of};
ghost use Rattle.database.specs.Cells.{AreRows};
ghost use Rattle.database.specs.State.{State, file_of};
ghost use Rattle.database.specs.Commands.{last_names, closing};
ghost use Rattle.database.specs.Answer.{HasCause, OnlyStops};
ghost use Rattle.db_files.specs.Serving.{Closing, count_existing, bytes_of};
ghost use Rattle.db_files.specs.Trouble.{OnlyStopsOrRowTrouble};

use crate::manifest::manifest_bytes;
use crate::tiles::put_tiles;
use availability::layer_text;
use cell_cache::CachedCells;
use database::EngineAnswer;
use db_manifest::ManifestState;
use std::alloc::Global;
use terrain_base::{CellKey, Name, Params, Store, Summary, Work};
use tile_deps::DepIndex;

/// Puts the file of a cell, or deletes it where there are no bytes.
pub fn put_cell<S: Store>(
    store: &mut S,
    key: CellKey,
    bytes: Option<&[u8]>,
) -> Result<(), EngineAnswer>
    ensures ran { Ran (step_to (bytes_of bytes.entry) (Cell key) ∷ [])
        (S.holds store.old) (S.log store.old) (S.holds store.new) (S.log store.new) result }
    ensures stop { OnlyStops result }
    ensures cause { HasCause (S.faults store.old) (S.faults store.new) result }
{
    match bytes {
        Some(bytes) => store.put(&Name::cell(key), bytes)?,
        None => store.delete(&Name::cell(key))?,
    }
    Ok(())
}

/// Puts the layer and the closed manifest, and deletes the stage.
pub fn put_last<S: Store>(
    alloc: Global,
    store: &mut S,
    rows: &[Summary],
    params: &Params,
) -> Result<(), EngineAnswer>
    requires rows { AreRows rows.now }
    ensures ran { (s : State) → params.now ≡ s.params → rows.now ≡ summaries_of s.cells
        → Ran (steps_to (file_of s) last_names)
        (S.holds store.old) (S.log store.old) (S.holds store.new) (S.log store.new) result }
    ensures stop { OnlyStops result }
    ensures cause { HasCause (S.faults store.old) (S.faults store.new) result }
{
    let layer = layer_text(alloc, rows, params.cap)?;
    store.put(&Name::layer(), &layer)?;
    let manifest = manifest_bytes(alloc, params, ManifestState::Closed, rows)?;
    store.put(&Name::manifest(), &manifest)?;
    store.delete(&Name::stage())?;
    Ok(())
}

/// Does what is left of a command once its mark is in the store: the cell with these bytes is put, or deleted where
/// there are none; each tile that touches its square is made or taken away; then layer and closed manifest are put, and
/// the stage is deleted. Where the store holds all other cells of a state with these params and rows, these are the
/// changes of that state's closing, nothing but a stop is answered in place of Ok, and no more tiles are made than
/// exist and touch the square. Over every other store only trouble with the cell of a row may be answered besides;
/// where the store tells its files, they show it once the cell is put.
pub fn close<S: Store>(
    alloc: Global,
    store: &mut S,
    rows: &[Summary],
    params: &Params,
    key: CellKey,
    bytes: Option<&[u8]>,
    work: &mut Work,
) -> Result<(), EngineAnswer>
    requires rows { AreRows rows.now }
    ensures ran { (s : State) → Closing (S.holds store.old) params.now rows.now key (bytes_of bytes.entry) s
        → Ran (closing key s) (S.holds store.old) (S.log store.old) (S.holds store.new) (S.log store.new) result }
    ensures stop { (s : State) → Closing (S.holds store.old) params.now rows.now key (bytes_of bytes.entry) s
        → OnlyStops result }
    ensures trouble { OnlyStopsOrRowTrouble rows.now
        (held_after (step_to (bytes_of bytes.entry) (Cell key)) (S.holds store.old)) result }
    ensures few { (s : State) → Closing (S.holds store.old) params.now rows.now key (bytes_of bytes.entry) s
        → work.new ≤ work.old + count_existing s (touched s.params.cap key.square) }
    ensures more { work.old ≤ work.new }
    ensures cause { HasCause (S.faults store.old) (S.faults store.new) result }
{
    put_cell(store, key, bytes)?;
    let mut source = CachedCells::new(alloc, rows)?;
    let index = DepIndex::of(alloc, rows, params.cap)?;
    let tiles = index.touched(key.square);
    put_tiles(alloc, store, &mut source, rows, params, tiles, work)?;
    put_last(alloc, store, rows, params)
}
