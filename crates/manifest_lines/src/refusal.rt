// Why bytes are read as no manifest.
ghost use Rattle.std.specs.Prelude.{◌≡◌};
ghost use Rattle.manifest_lines.specs.declared.refusal.ManifestRefusal.TheVariants.{NoMemory as NoMemoryLeft};

use std::alloc::{AllocError, AllocFailed};
use thiserror::Error;

/// Why bytes are read as no manifest.
#[derive(Clone, Copy, Debug, Error, PartialEq, Eq)]
pub enum ManifestRefusal {
    /// They are the text of no manifest. The first line, from 1, that is not as a manifest has it, is
    /// missing, lacks its line feed or follows the last row.
    #[error("not a database: line {line}")]
    NotADatabase { line: u32 },
    /// Memory was refused.
    #[error("no memory")]
    NoMemory,
}

impl From<AllocError> for ManifestRefusal {
    ghost from_gives = { λ _ refusal. refusal ≡ NoMemoryLeft };

    fn from(_: AllocError) -> Self {
        ManifestRefusal::NoMemory
    }
}

impl<T: Drop> From<AllocFailed<T>> for ManifestRefusal {
    ghost from_gives = { λ _ refusal. refusal ≡ NoMemoryLeft };

    fn from(_: AllocFailed<T>) -> Self {
        ManifestRefusal::NoMemory
    }
}
