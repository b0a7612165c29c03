// What stops a command in its midst.
ghost use Rattle.std.specs.Prelude.{◌≡◌};
ghost use Rattle.top_reply.specs.declared.stop.Stop.TheVariants.{NoMemory as OutOfMemory};

use std::alloc::AllocError;
use terrain_base::NoMemory;

/// What stops a command in its midst.
#[derive(Clone, Copy, Debug, PartialEq, Eq)]
pub enum Stop {
    /// The library failed.
    Input,
    /// The store failed.
    Store,
    /// The sink failed.
    Output,
    /// Memory was refused.
    NoMemory,
}

impl From<AllocError> for Stop {
    ghost from_gives = { λ _ stop. stop ≡ OutOfMemory };

    fn from(_: AllocError) -> Self {
        Stop::NoMemory
    }
}

impl From<NoMemory> for Stop {
    ghost from_gives = { λ _ stop. stop ≡ OutOfMemory };

    fn from(_: NoMemory) -> Self {
        Stop::NoMemory
    }
}
