// What a cell is held under.
ghost use Rattle.std.specs.Prelude.{◌≡◌};
ghost use Rattle.cell_cache.specs.Slot.{slot_at};

use terrain_base::{CellKey, level_number};

/// A cell's key, by its numbers. Unlike a key it can be hashed.
#[derive(Clone, Copy, PartialEq, Eq, Hash)]
pub(crate) struct Slot {
    lat: u16,
    lon: u16,
    level: u8,
}

/// The slot of a key.
pub(crate) fn slot_of(key: CellKey) -> Slot
    ensures { result ≡ slot_at key }
{
    Slot {
        lat: key.square.lat(),
        lon: key.square.lon(),
        level: level_number(key.level),
    }
}
