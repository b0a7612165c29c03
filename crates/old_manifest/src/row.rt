// A row of an old manifest.
ghost use Rattle.std.specs.Prelude.{◌≡◌, ◌≢◌, ◌↔◌, IsTrue, IfSome, IfNone};
ghost use Rattle.manifest_lines.specs.declared.version.Version.TheVariants.{One, Two};
ghost use Rattle.old_manifest.specs.declared.row.OldRow as row;
ghost use Rattle.old_manifest.specs.Rows.{old_rank_of, old_suits, old_text};
ghost use Rattle.old_manifest.specs.OldRows.{old_sound};

use manifest_lines::{Row, Version};
use terrain_base::{CellKey, CellLevel, Square};

/// A row of an old manifest: a square and, from version 2 on, a level.
#[derive(Clone, Copy, Debug, PartialEq, Eq)]
pub struct OldRow {
    pub square: Square,
    pub level: Option<CellLevel>,
}

// The place of a level among those of a square, the finest first.
fn rank(level: Option<CellLevel>) -> u8
    ensures { result ≡ old_rank_of level }
{
    match level {
        Some(CellLevel::Two) => 0,
        Some(CellLevel::One) => 1,
        Some(CellLevel::Zero) => 2,
        None => 3,
    }
}

impl OldRow {
    /// Whether it is this row.
    pub fn is(&self, other: &OldRow) -> bool
        ensures yes { IsTrue result → self.now ≡ other.now }
        ensures no { self.now ≡ other.now → IsTrue result }
    {
        if self.square.lat != other.square.lat || self.square.lon != other.square.lon {
            return false;
        }
        if rank(self.level) != rank(other.level) {
            return false;
        }
        true
    }
}

// The row of version 1 that has this text.
fn read_square(line: &[u8]) -> Option<OldRow>
    ensures some { IfSome result (λ row. (line.now ≡ old_text row) × IsTrue (old_suits One row.level)) }
    ensures none { IfNone result ((row : row.OldRow) → IsTrue (old_suits One row.level) → line.now ≢ old_text row) }
{
    let square = Square::read(line)?;
    Some(OldRow {
        square,
        level: None,
    })
}

// The row of version 2 that has this text.
fn read_key(line: &[u8]) -> Option<OldRow>
    ensures some { IfSome result (λ row. (line.now ≡ old_text row) × IsTrue (old_suits Two row.level)) }
    ensures none { IfNone result ((row : row.OldRow) → IsTrue (old_suits Two row.level) → line.now ≢ old_text row) }
{
    let key = CellKey::read(line)?;
    Some(OldRow {
        square: key.square,
        level: Some(key.level),
    })
}

impl Row for OldRow {
    ghost use Rattle.old_manifest.specs.Rows.{old_grammar};

    ghost grammar = { old_grammar };

    ghost sound = { old_sound };

    fn read(version: Version, line: &[u8]) -> Option<OldRow> {
        match version {
            Version::One => read_square(line),
            Version::Two => read_key(line),
            Version::Three => read_key(line),
        }
    }

    fn precedes(&self, next: &OldRow) -> bool {
        self.square
            .cmp(&next.square)
            .then(rank(self.level).cmp(&rank(next.level)))
            .is_lt()
    }

    fn is_among(&self, rows: &[OldRow]) -> bool {
        for row in rows {
            if row.is(self) {
                return true;
            }
        }
        false
    }
}
