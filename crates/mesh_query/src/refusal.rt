// Why a stored tile is not read.
ghost use Rattle.std.specs.Prelude.{◌≡◌};
ghost use Rattle.mesh_query.specs.declared.refusal.QueryRefusal.TheVariants.{NoMemory as NoMemoryLeft};

use mesh_check::Finding;
use std::alloc::{AllocError, AllocFailed};
use terrain_base::NoMemory;

/// Why a stored tile gives no heights.
#[derive(Clone, Copy, Debug, PartialEq, Eq)]
pub enum QueryRefusal {
    /// The first vertex, counted from 0, that has no whole number of metres within -65535 to 65535.
    NotWhole { vertex: u32 },
    /// The mesh does not cover its tile once, and this is the first thing that is wrong with it.
    Unsound { finding: Finding },
    /// Memory was refused.
    NoMemory,
}

impl From<NoMemory> for QueryRefusal {
    ghost from_gives = { λ _ refusal. refusal ≡ NoMemoryLeft };

    fn from(_: NoMemory) -> Self {
        QueryRefusal::NoMemory
    }
}

impl From<AllocError> for QueryRefusal {
    ghost from_gives = { λ _ refusal. refusal ≡ NoMemoryLeft };

    fn from(_: AllocError) -> Self {
        QueryRefusal::NoMemory
    }
}

impl<T: Drop> From<AllocFailed<T>> for QueryRefusal {
    ghost from_gives = { λ _ refusal. refusal ≡ NoMemoryLeft };

    fn from(_: AllocFailed<T>) -> Self {
        QueryRefusal::NoMemory
    }
}
