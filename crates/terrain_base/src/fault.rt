// What a call that takes memory or asks the outside may answer in place of Ok.
ghost use Rattle.std.specs.Prelude.{◌≡◌};
ghost use Rattle.terrain_base.specs.declared.fault.DeviceFault.TheVariants.{NoMemory as NoMemoryLeft};

use std::alloc::{AllocError, AllocFailed};
use thiserror::Error;

/// Memory was asked for and refused. It is the one answer that no contract ties to a cause.
#[derive(Clone, Copy, Debug, Error, PartialEq, Eq)]
#[error("no memory")]
pub struct NoMemory;

impl From<AllocError> for NoMemory {
    fn from(_: AllocError) -> Self {
        NoMemory
    }
}

impl<T: Drop> From<AllocFailed<T>> for NoMemory {
    fn from(_: AllocFailed<T>) -> Self {
        NoMemory
    }
}

/// What a call on the outside answers in place of Ok.
#[derive(Clone, Copy, Debug, Error, PartialEq, Eq)]
pub enum DeviceFault {
    /// The device failed: its count of faults rose in this call, or stands at its end.
    #[error("the device failed")]
    Failed,
    /// Memory was refused.
    #[error("no memory")]
    NoMemory,
}

impl From<AllocError> for DeviceFault {
    ghost from_gives = { λ _ fault. fault ≡ NoMemoryLeft };

    fn from(_: AllocError) -> Self {
        DeviceFault::NoMemory
    }
}

impl<T: Drop> From<AllocFailed<T>> for DeviceFault {
    ghost from_gives = { λ _ fault. fault ≡ NoMemoryLeft };

    fn from(_: AllocFailed<T>) -> Self {
        DeviceFault::NoMemory
    }
}

impl From<NoMemory> for DeviceFault {
    ghost from_gives = { λ _ fault. fault ≡ NoMemoryLeft };

    fn from(_: NoMemory) -> Self {
        DeviceFault::NoMemory
    }
}
