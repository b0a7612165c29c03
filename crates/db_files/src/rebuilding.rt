// Rebuilding: what is no file of the state is deleted, and every tile is made anew.
ghost use Rattle.std.specs.Prelude.{◌≡◌, ◌≤◌, ◌+◌, [], ◌∷◌, true, false};
ghost use Rattle.std.specs.List.{filter};
ghost use Rattle.terrain_base.specs.declared.cell_key.CellKey as cell_key;
ghost use Rattle.terrain_base.specs.declared.name.Key.TheVariants.{Cell};
ghost use Rattle.terrain_base.specs.Step.{Files};
ghost use Rattle.terrain_base.specs.Run.{Ran};
ghost use Rattle.terrain_base.specs.Overwrite.{steps_to};
ghost use Rattle.cell_cache.specs.Cached.{shapes_of_rows};
ghost use Rattle.cell_mosaic.specs.Source.{AlikeCells};
ghost use Rattle.cell_mosaic.specs.Summaries.{summaries_of};
ghost use Rattle.database.specs.Cells.{AreRows, has_row};
ghost use Rattle.database.specs.State.{State, file_of};
ghost use Rattle.database.specs.Commands.{existing, is_extra, rebuilding, rebuild_calls};
ghost use Rattle.database.specs.Answer.{HasCause, OnlyStops};
ghost use Rattle.db_files.specs.Serving.{Filling, count_existing};
ghost use Rattle.db_files.specs.Trouble.{OnlyStopsOrRowTrouble};

use crate::closing::put_last;
use crate::manifest::manifest_bytes;
use crate::rows::finds_row;
use crate::tiles::put_tiles;
use availability::exists;
use cell_cache::CachedCells;
use database::EngineAnswer;
use db_manifest::ManifestState;
use std::alloc::Global;
use terrain_base::{Key, Name, Params, Store, Summary, Work};
use tile_deps::ExistingTiles;

// Whether the name is neither of a file of the state nor the stage.
fn is_extra(rows: &[Summary], params: &Params, name: &Name) -> bool
    requires { AreRows rows.now }
    ensures extra { (s : State) → params.now ≡ s.params → rows.now ≡ summaries_of s.cells
        → result ≡ is_extra s name.now }
    ensures kept { (key : cell_key.CellKey) → name.now ≡ Cell key → has_row rows.now key ≡ true → result ≡ false }
{
    match name.key() {
        Key::Manifest | Key::Layer | Key::Stage => false,
        Key::Cell(key) => !finds_row(rows, key),
        Key::OldCell(_) => true,
        Key::Terrain(tile) | Key::Note(tile) => !exists(rows, params.cap, tile),
    }
}

// Deletes the name if it is extra.
fn delete_if_extra<S: Store>(
    store: &mut S,
    rows: &[Summary],
    params: &Params,
    name: &Name,
) -> Result<(), EngineAnswer>
    requires { AreRows rows.now }
    ensures ran { (s : State) → params.now ≡ s.params → rows.now ≡ summaries_of s.cells
        → Ran (steps_to (file_of s) (filter (is_extra s) (name.now ∷ [])))
        (S.holds store.old) (S.log store.old) (S.holds store.new) (S.log store.new) result }
    ensures stop { OnlyStops result }
    ensures alike { AlikeCells (shapes_of_rows rows.now) (S.holds store.old) (S.holds store.new) }
    ensures cause { HasCause (S.faults store.old) (S.faults store.new) result }
{
    if is_extra(rows, params, name) {
        store.delete(name)?;
        return Ok(());
    }
    Ok(())
}

// Deletes those of the names that are extra.
fn delete_extra<S: Store>(
    store: &mut S,
    rows: &[Summary],
    params: &Params,
    names: &[Name],
) -> Result<(), EngineAnswer>
    requires { AreRows rows.now }
    ensures ran { (s : State) → params.now ≡ s.params → rows.now ≡ summaries_of s.cells
        → Ran (steps_to (file_of s) (filter (is_extra s) names.now))
        (S.holds store.old) (S.log store.old) (S.holds store.new) (S.log store.new) result }
    ensures stop { OnlyStops result }
    ensures alike { AlikeCells (shapes_of_rows rows.now) (S.holds store.old) (S.holds store.new) }
    ensures cause { HasCause (S.faults store.old) (S.faults store.new) result }
{
    for name in names {
        delete_if_extra(store, rows, params, name)?;
    }
    Ok(())
}

/// Does what is left of a rebuilding once its mark is in the store: each held name that is neither of a file nor the
/// stage is deleted, each tile that exists is made and put, then layer and closed manifest are put, and the stage is
/// deleted. Where the store holds the cells of a state with these params and rows, these are the changes of that
/// state's rebuilding, nothing but a stop is answered in place of Ok, and no more tiles are made than exist. Over every
/// other store only trouble with the cell of a row may be answered besides, which the files show where the store tells
/// them.
pub fn refill<S: Store>(
    alloc: Global,
    store: &mut S,
    rows: &[Summary],
    params: &Params,
    work: &mut Work,
) -> Result<(), EngineAnswer>
    requires rows { AreRows rows.now }
    ensures ran { (files : Files) (s : State) → Filling (S.holds store.old) params.now rows.now files s
        → Ran (rebuilding files s)
        (S.holds store.old) (S.log store.old) (S.holds store.new) (S.log store.new) result }
    ensures stop { (files : Files) (s : State) → Filling (S.holds store.old) params.now rows.now files s
        → OnlyStops result }
    ensures trouble { OnlyStopsOrRowTrouble rows.now (S.holds store.old) result }
    ensures few { (files : Files) (s : State) → Filling (S.holds store.old) params.now rows.now files s
        → work.new ≤ work.old + count_existing s (existing s) }
    ensures more { work.old ≤ work.new }
    ensures cause { HasCause (S.faults store.old) (S.faults store.new) result }
{
    let names = store.names()?;
    delete_extra(store, rows, params, &names)?;
    let mut source = CachedCells::new(alloc, rows)?;
    let tiles = ExistingTiles::of(alloc, rows, params.cap)?;
    put_tiles(alloc, store, &mut source, rows, params, tiles, work)?;
    put_last(alloc, store, rows, params)
}

/// A whole rebuilding: its mark is put, and then it is done as `refill` does.
pub fn restart<S: Store>(
    alloc: Global,
    store: &mut S,
    rows: &[Summary],
    params: &Params,
    work: &mut Work,
) -> Result<(), EngineAnswer>
    requires rows { AreRows rows.now }
    ensures ran { (files : Files) (s : State) → Filling (S.holds store.old) params.now rows.now files s
        → Ran (rebuild_calls files s)
        (S.holds store.old) (S.log store.old) (S.holds store.new) (S.log store.new) result }
    ensures stop { (files : Files) (s : State) → Filling (S.holds store.old) params.now rows.now files s
        → OnlyStops result }
    ensures trouble { OnlyStopsOrRowTrouble rows.now (S.holds store.old) result }
    ensures few { (files : Files) (s : State) → Filling (S.holds store.old) params.now rows.now files s
        → work.new ≤ work.old + count_existing s (existing s) }
    ensures more { work.old ≤ work.new }
    ensures cause { HasCause (S.faults store.old) (S.faults store.new) result }
{
    let text = manifest_bytes(alloc, params, ManifestState::Rebuild, rows)?;
    store.put(&Name::manifest(), &text)?;
    refill(alloc, store, rows, params, work)
}
