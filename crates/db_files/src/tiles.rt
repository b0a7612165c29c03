// The files of tiles, made or taken away.
ghost use Rattle.std.specs.Prelude.{◌≡◌, ◌≤◌, ◌+◌, [], ◌∷◌, List};
ghost use Rattle.std.specs.Iterator.{IsFinite};
ghost use Rattle.terrain_base.specs.declared.name.Key.TheVariants.{Terrain, Note};
ghost use Rattle.terrain_base.specs.declared.tile.TileId as tile_id;
ghost use Rattle.terrain_base.specs.Step.{Write, Erase};
ghost use Rattle.terrain_base.specs.Run.{Ran};
ghost use Rattle.terrain_base.specs.Overwrite.{steps_to};
ghost use Rattle.database.specs.State.{State, file_of};
ghost use Rattle.database.specs.Commands.{tile_names};
ghost use Rattle.database.specs.Answer.{HasCause, OnlyStops};
ghost use Rattle.db_files.specs.Serving.{Serves, GivesTiles, count_existing};
ghost use Rattle.db_files.specs.Trouble.{OnlyStopsOrTrouble, KeepsCells};

use availability::exists;
use cell_mosaic::PostSource;
use database::EngineAnswer;
use std::alloc::Global;
use terrain_base::{Name, Params, Store, Summary, TileId, Work};
use tile_file::{TileFiles, make_tile};

// Puts the two files of a tile.
fn put_made<S: Store>(store: &mut S, tile: TileId, made: &TileFiles) -> Result<(), EngineAnswer>
    ensures ran { Ran (Write (Terrain tile) made.now.terrain.items ∷ Write (Note tile) made.now.note.items ∷ [])
        (S.holds store.old) (S.log store.old) (S.holds store.new) (S.log store.new) result }
    ensures stop { OnlyStops result }
    ensures cause { HasCause (S.faults store.old) (S.faults store.new) result }
{
    store.put(&Name::terrain(tile), &made.terrain)?;
    store.put(&Name::note(tile), &made.note)?;
    Ok(())
}

// Takes the two files of a tile away.
fn drop_tile<S: Store>(store: &mut S, tile: TileId) -> Result<(), EngineAnswer>
    ensures ran { Ran (Erase (Terrain tile) ∷ Erase (Note tile) ∷ [])
        (S.holds store.old) (S.log store.old) (S.holds store.new) (S.log store.new) result }
    ensures stop { OnlyStops result }
    ensures cause { HasCause (S.faults store.old) (S.faults store.new) result }
{
    store.delete(&Name::terrain(tile))?;
    store.delete(&Name::note(tile))?;
    Ok(())
}

/// Makes the two files that are held of a tile what they are to be: puts them, terrain first, where the tile exists,
/// and deletes them where it does not. Where the source tells the cells of a state with these params and rows, they
/// are the state's files, the cells stay told, and nothing but a stop by the store or for want of memory is answered
/// in place of Ok; it counts a tile that exists. Over every other store only trouble with a cell of the source may be
/// answered besides, which the files show where they are told. The files of the source's cells stay.
pub fn put_tile<P: PostSource, S: Store>(
    alloc: Global,
    store: &mut S,
    source: &mut P,
    rows: &[Summary],
    params: &Params,
    tile: TileId,
    work: &mut Work,
) -> Result<(), EngineAnswer>
    ensures ran { (s : State) → Serves (P.cells source.old (S.holds store.old)) params.now rows.now s
        → Ran (steps_to (file_of s) (Terrain tile ∷ Note tile ∷ []))
        (S.holds store.old) (S.log store.old) (S.holds store.new) (S.log store.new) result }
    ensures stays { (s : State) → Serves (P.cells source.old (S.holds store.old)) params.now rows.now s
        → P.cells source.new (S.holds store.new) ≡ P.cells source.old (S.holds store.old) }
    ensures stop { (s : State) → Serves (P.cells source.old (S.holds store.old)) params.now rows.now s
        → OnlyStops result }
    ensures trouble { OnlyStopsOrTrouble (P.shapes source.old) (S.holds store.old) result }
    ensures keeps { KeepsCells (P.shapes source.old) (P.shapes source.new) (S.holds store.old) (S.holds store.new) }
    ensures few { (s : State) → Serves (P.cells source.old (S.holds store.old)) params.now rows.now s
        → work.new ≤ work.old + count_existing s (tile ∷ []) }
    ensures more { work.old ≤ work.new }
    ensures cause { HasCause (S.faults store.old) (S.faults store.new) result }
{
    if exists(rows, params.cap, tile) {
        let made = make_tile(alloc, source, store, rows, params, tile, work)?;
        put_made(store, tile, &made)
    } else {
        drop_tile(store, tile)
    }
}

/// The same for each of the tiles that an iterator gives, in its order. What is said of a list holds of the one that it
/// always gives.
pub fn put_tiles<I: Iterator<Item = TileId> + Drop, P: PostSource, S: Store>(
    alloc: Global,
    store: &mut S,
    source: &mut P,
    rows: &[Summary],
    params: &Params,
    tiles: I,
    work: &mut Work,
) -> Result<(), EngineAnswer>
    requires can { I.can_next tiles }
    requires ends { IsFinite (I.remaining tiles) }
    ensures ran { (s : State) (list : List tile_id.TileId) → GivesTiles I.next_gives tiles list
        → Serves (P.cells source.old (S.holds store.old)) params.now rows.now s
        → Ran (steps_to (file_of s) (tile_names list))
        (S.holds store.old) (S.log store.old) (S.holds store.new) (S.log store.new) result }
    ensures stop { (s : State) (list : List tile_id.TileId) → GivesTiles I.next_gives tiles list
        → Serves (P.cells source.old (S.holds store.old)) params.now rows.now s → OnlyStops result }
    ensures trouble { OnlyStopsOrTrouble (P.shapes source.old) (S.holds store.old) result }
    ensures few { (s : State) (list : List tile_id.TileId) → GivesTiles I.next_gives tiles list
        → Serves (P.cells source.old (S.holds store.old)) params.now rows.now s
        → work.new ≤ work.old + count_existing s list }
    ensures more { work.old ≤ work.new }
    ensures cause { HasCause (S.faults store.old) (S.faults store.new) result }
{
    for tile in tiles {
        put_tile(alloc, store, source, rows, params, tile, work)?;
    }
    Ok(())
}
