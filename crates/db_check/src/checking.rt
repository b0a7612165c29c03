//! All files of a database.
ghost use Rattle.std.specs.Prelude.{◌≡◌, ◌≤◌, ◌+◌, IfOk, length, true};
ghost use Rattle.tile_deps.specs.Tiles.{existing};
ghost use Rattle.database.specs.Answer.{HasCause, OnlyStops};
ghost use Rattle.database.specs.State.{State};
ghost use Rattle.db_files.specs.Trouble.{OnlyStopsOrRowTrouble};
ghost use Rattle.db_engine.specs.Holding.{HoldsState};
ghost use Rattle.db_check.specs.Verdict.{IsVerdictOf};

use crate::CheckVerdict;
use crate::extra::least_extra;
use crate::texts::keep_texts;
use crate::tiles::keep_tiles;
use crate::verdict::verdict_by;
use cell_cache::CachedCells;
use database::EngineAnswer;
use db_engine::Opened;
use std::alloc::Global;
use terrain_base::{Store, Work};
use tile_deps::ExistingTiles;

/// Compares each file that the store holds with a build from scratch of the opened cells. Good exactly where the files
/// are those of the opened state, with how many they are; else Found with the least name, by the order of bytes, that
/// differs, is missing or is extra. Each tile that exists is made once. The files of the cells are not compared: the
/// build is of what they hold.
///
/// Over a store that holds the opened cells nothing but a stop by the store or for want of memory is answered in place
/// of Ok. Over every other store only trouble with the cell of a row may be answered besides; where the store tells its
/// files, they show it. Changes nothing held and adds nothing to the log, whatever it answers.
pub fn check<S: Store>(
    alloc: Global,
    store: &mut S,
    opened: &Opened,
    work: &mut Work,
) -> Result<CheckVerdict, EngineAnswer>
    requires { opened.now.live ≡ true }
    ensures verdict { IfOk result (λ verdict. (s : State) (h : HoldsState (S.holds store.old) opened.now s)
        → IsVerdictOf s h.files verdict) }
    ensures stop { (s : State) → HoldsState (S.holds store.old) opened.now s → OnlyStops result }
    ensures trouble { OnlyStopsOrRowTrouble opened.now.rows (S.holds store.old) result }
    ensures few { work.new ≤ work.old + length (existing opened.now.params.cap opened.now.rows) }
    ensures more { work.old ≤ work.new }
    ensures same { S.holds store.new ≡ S.holds store.old }
    ensures quiet { S.log store.new ≡ S.log store.old }
    ensures cause { HasCause (S.faults store.old) (S.faults store.new) result }
{
    let rows = opened.summaries();
    let params = opened.params();
    let names = store.names()?;
    let extra = least_extra(rows, &params, &names);
    let texts = keep_texts(alloc, store, rows, &params, extra)?;
    let mut source = CachedCells::new(alloc, rows)?;
    let tiles = ExistingTiles::of(alloc, rows, params.cap)?;
    let least = keep_tiles(alloc, store, &mut source, rows, &params, texts, tiles, work)?;
    Ok(verdict_by(least, names.len() as u64))
}
