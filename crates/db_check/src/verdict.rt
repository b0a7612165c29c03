//! What a comparison says.
ghost use Rattle.std.specs.Prelude.{◌≡◌};
ghost use Rattle.std.specs.FinMap as map;
ghost use Rattle.terrain_base.specs.Step.{Files};
ghost use Rattle.database.specs.State.{State};
ghost use Rattle.database.specs.Verdict.{IsVerdict};
ghost use Rattle.db_check.specs.Verdict.{IsVerdictOf};

use database::{Difference, Finding};
use terrain_base::Name;

/// Whether the files are those of a build from scratch.
#[derive(Clone, Copy, Debug, PartialEq, Eq)]
pub enum CheckVerdict {
    /// They are, byte for byte and with no name more. So many are held.
    Good { files: u64 },
    /// They are not. This is the least name, by the order of bytes, that shows a difference.
    Found { name: Name, kind: Difference },
}

// The verdict by the least difference among all names.
pub(crate) fn verdict_by(least: Option<Finding>, files: u64) -> CheckVerdict
    ensures { (s : State) (held : Files) → IsVerdict s held least → files ≡ map.len held → IsVerdictOf s held result }
{
    match least {
        None => CheckVerdict::Good { files },
        Some(Finding { name, kind }) => CheckVerdict::Found { name, kind },
    }
}
