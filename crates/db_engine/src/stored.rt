//! The files of a tile, as they are stored.
ghost use Rattle.std.specs.Prelude.{◌≡◌, IfOk, IfErr, true};
ghost use Rattle.availability.specs.Existence.{exists_of};
ghost use Rattle.database.specs.Answer.{HasCause};
ghost use Rattle.db_engine.specs.Stored.{IsUnder, IsUnheld, AreStored, IsNotStored};

use crate::Opened;
use availability::exists;
use database::EngineAnswer;
use terrain_base::{Name, Store, TileId};
use tile_file::TileFiles;

// The bytes under a name.
fn stored<S: Store>(store: &mut S, name: Name) -> Result<Vec<u8>, EngineAnswer>
    ensures ok { IfOk result (λ bytes. IsUnder (S.holds store.old) name bytes.items) }
    ensures refused { IfErr result (IsUnheld (S.holds store.old) name) }
    ensures same { S.holds store.new ≡ S.holds store.old }
    ensures quiet { S.log store.new ≡ S.log store.old }
    ensures cause { HasCause (S.faults store.old) (S.faults store.new) result }
{
    match store.get(&name)? {
        Some(bytes) => Ok(bytes),
        None => Err(EngineAnswer::TileLost { name }),
    }
}

/// The stored files of a tile. K10 exactly where the tile does not exist; K11 exactly where it does and its terrain, or
/// else its note, is not held, with that name. Changes nothing held and adds nothing to the log, whatever it answers.
pub fn stored_tile<S: Store>(
    store: &mut S,
    opened: &Opened,
    tile: TileId,
) -> Result<TileFiles, EngineAnswer>
    requires { opened.now.live ≡ true }
    ensures ok { IfOk result (λ files. AreStored (S.holds store.old)
        (exists_of opened.now.params.cap opened.now.rows tile) tile files) }
    ensures refused { IfErr result (IsNotStored (S.holds store.old)
        (exists_of opened.now.params.cap opened.now.rows tile) tile) }
    ensures same { S.holds store.new ≡ S.holds store.old }
    ensures quiet { S.log store.new ≡ S.log store.old }
    ensures cause { HasCause (S.faults store.old) (S.faults store.new) result }
{
    if !exists(opened.summaries(), opened.params().cap, tile) {
        return Err(EngineAnswer::NoTile { tile });
    }
    let terrain = stored(store, Name::terrain(tile))?;
    let note = stored(store, Name::note(tile))?;
    Ok(TileFiles { terrain, note })
}
