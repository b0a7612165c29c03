// Keys of cells as rows.
ghost use Rattle.manifest_lines.specs.KeyRow.{key_grammar, key_sound};

use crate::{Row, Version};
use terrain_base::CellKey;

impl Row for CellKey {
    ghost grammar = { key_grammar };

    ghost sound = { key_sound };

    fn read(_version: Version, line: &[u8]) -> Option<CellKey> {
        CellKey::read(line)
    }

    fn precedes(&self, next: &CellKey) -> bool {
        CellKey::precedes(self, next)
    }

    fn is_among(&self, rows: &[CellKey]) -> bool {
        for row in rows {
            if row.is(self) {
                return true;
            }
        }
        false
    }
}
