//! The two files of each tile that exists.
ghost use Rattle.std.specs.Prelude.{◌≡◌, ◌≤◌, ◌+◌, ◌++◌, [], ◌∷◌, List, Some, IfOk, length, true};
ghost use Rattle.std.specs.Iterator.{IsFinite};
ghost use Rattle.terrain_base.specs.declared.name.Key as key;
ghost use Rattle.terrain_base.specs.declared.name.Key.TheVariants.{Terrain, Note};
ghost use Rattle.terrain_base.specs.declared.tile.TileId as tile_id;
ghost use Rattle.terrain_base.specs.Step.{Files};
ghost use Rattle.database.specs.Answer.{HasCause, OnlyStops};
ghost use Rattle.database.specs.Commands.{tile_names};
ghost use Rattle.database.specs.State.{State, tile_exists};
ghost use Rattle.database.specs.Verdict.{difference_at, IsLeast};
ghost use Rattle.db_files.specs.Serving.{Serves, GivesTiles};
ghost use Rattle.db_files.specs.Trouble.{OnlyStopsOrTrouble};
ghost use Rattle.db_check.specs.Tiles.{AllExist};

use crate::least::keep_compared;
use cell_mosaic::PostSource;
use database::{EngineAnswer, Finding};
use std::alloc::Global;
use terrain_base::{Name, Params, Store, Summary, TileId, Work};
use tile_file::make_tile;

// What is kept when a tile that exists is made, and its terrain and its note are compared.
fn keep_tile<P: PostSource, S: Store>(
    alloc: Global,
    store: &mut S,
    source: &mut P,
    rows: &[Summary],
    params: &Params,
    best: Option<Finding>,
    tile: TileId,
    work: &mut Work,
) -> Result<Option<Finding>, EngineAnswer>
    ensures least { IfOk result (λ least. (files : Files) (s : State) (names : List key.Key)
        → S.holds store.old ≡ Some files → Serves (P.cells source.old (S.holds store.old)) params.now rows.now s
        → tile_exists s tile ≡ true → IsLeast (difference_at s files) names best
        → IsLeast (difference_at s files) (names ++ Terrain tile ∷ Note tile ∷ []) least) }
    ensures stays { (s : State) → Serves (P.cells source.old (S.holds store.old)) params.now rows.now s
        → P.cells source.new (S.holds store.new) ≡ P.cells source.old (S.holds store.old) }
    ensures shapes { P.shapes source.new ≡ P.shapes source.old }
    ensures stop { (s : State) → Serves (P.cells source.old (S.holds store.old)) params.now rows.now s
        → OnlyStops result }
    ensures trouble { OnlyStopsOrTrouble (P.shapes source.old) (S.holds store.old) result }
    ensures few { work.new ≤ work.old + 1 }
    ensures more { work.old ≤ work.new }
    ensures same { S.holds store.new ≡ S.holds store.old }
    ensures quiet { S.log store.new ≡ S.log store.old }
    ensures cause { HasCause (S.faults store.old) (S.faults store.new) result }
{
    let made = make_tile(alloc, source, store, rows, params, tile, work)?;
    let first = keep_compared(store, best, Name::terrain(tile), &made.terrain)?;
    keep_compared(store, first, Name::note(tile), &made.note)
}

// The same for each of the tiles that an iterator gives. What is said of a list holds of the one that it always gives.
pub(crate) fn keep_tiles<I: Iterator<Item = TileId> + Drop, P: PostSource, S: Store>(
    alloc: Global,
    store: &mut S,
    source: &mut P,
    rows: &[Summary],
    params: &Params,
    first: Option<Finding>,
    tiles: I,
    work: &mut Work,
) -> Result<Option<Finding>, EngineAnswer>
    requires can { I.can_next tiles }
    requires ends { IsFinite (I.remaining tiles) }
    ensures least { IfOk result (λ least. (files : Files) (s : State) (list : List tile_id.TileId)
        (names : List key.Key) → GivesTiles I.next_gives tiles list → S.holds store.old ≡ Some files
        → Serves (P.cells source.old (S.holds store.old)) params.now rows.now s → AllExist s list
        → IsLeast (difference_at s files) names first
        → IsLeast (difference_at s files) (names ++ tile_names list) least) }
    ensures stop { (s : State) → Serves (P.cells source.old (S.holds store.old)) params.now rows.now s
        → OnlyStops result }
    ensures trouble { OnlyStopsOrTrouble (P.shapes source.old) (S.holds store.old) result }
    ensures few { (list : List tile_id.TileId) → GivesTiles I.next_gives tiles list
        → work.new ≤ work.old + length list }
    ensures more { work.old ≤ work.new }
    ensures same { S.holds store.new ≡ S.holds store.old }
    ensures quiet { S.log store.new ≡ S.log store.old }
    ensures cause { HasCause (S.faults store.old) (S.faults store.new) result }
{
    let mut best = first;
    for tile in tiles {
        best = keep_tile(alloc, store, source, rows, params, best, tile, work)?;
    }
    Ok(best)
}
