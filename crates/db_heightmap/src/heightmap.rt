//! A tile that exists, as a heightmap.
ghost use Rattle.std.specs.Prelude.{◌≡◌, ◌↔◌, Err, IfOk, length, false, true};
ghost use Rattle.availability.specs.Existence.{exists_of};
ghost use Rattle.database.specs.Answer.{HasCause, OnlyStops};
ghost use Rattle.database.specs.State.{State};
ghost use Rattle.database.specs.declared.answer.EngineAnswer.TheVariants.{NoTile};
ghost use Rattle.db_files.specs.Trouble.{OnlyStopsOrRowTrouble};
ghost use Rattle.db_engine.specs.Holding.{HoldsState};
ghost use Rattle.heightmap_out.specs.Tile.{heightmap_of};

use availability::exists;
use cell_cache::CachedCells;
use database::EngineAnswer;
use db_engine::Opened;
use heightmap_out::heightmap;
use std::alloc::Global;
use terrain_base::{Store, TileId};

/// A tile of the opened database in the form heightmap-1.0: 8452 bytes, of the database's cells, its fill where no
/// cell tells a height, and the children that exist. The tile's stored files are not read, and no tile is made.
///
/// K10 exactly where the tile does not exist. Where it does, over a store that holds the opened cells nothing but a
/// stop by the store or for want of memory is answered in place of Ok; over every other store only trouble with the
/// cell of a row may be answered besides, and where the store tells its files, they show it. Changes nothing held and
/// adds nothing to the log, whatever it answers.
pub fn heightmap_tile<S: Store>(
    alloc: Global,
    store: &mut S,
    opened: &Opened,
    tile: TileId,
) -> Result<Vec<u8>, EngineAnswer>
    requires { opened.now.live ≡ true }
    ensures made { IfOk result (λ bytes. (s : State) → HoldsState (S.holds store.old) opened.now s
        → bytes.items ≡ heightmap_of s.params s.cells tile) }
    ensures long { IfOk result (λ bytes. length bytes.items ≡ 8452) }
    ensures exists { IfOk result (λ bytes. exists_of opened.now.params.cap opened.now.rows tile ≡ true) }
    ensures none { (result ≡ Err (NoTile tile)) ↔ (exists_of opened.now.params.cap opened.now.rows tile ≡ false) }
    ensures stop { (s : State) → HoldsState (S.holds store.old) opened.now s
        → exists_of opened.now.params.cap opened.now.rows tile ≡ true → OnlyStops result }
    ensures trouble { exists_of opened.now.params.cap opened.now.rows tile ≡ true
        → OnlyStopsOrRowTrouble opened.now.rows (S.holds store.old) result }
    ensures same { S.holds store.new ≡ S.holds store.old }
    ensures quiet { S.log store.new ≡ S.log store.old }
    ensures cause { HasCause (S.faults store.old) (S.faults store.new) result }
{
    let rows = opened.summaries();
    let params = opened.params();
    if !exists(rows, params.cap, tile) {
        return Err(EngineAnswer::NoTile { tile });
    }
    let mut source = CachedCells::new(alloc, rows)?;
    let bytes = heightmap(alloc, &mut source, store, rows, &params, tile)?;
    Ok(bytes)
}
