// What a source may answer in place of a post.
ghost use Rattle.std.specs.Prelude.{◌≡◌};
ghost use Rattle.cell_mosaic.specs.Fault.{fault_of};
ghost use Rattle.cell_mosaic.specs.declared.fault.SourceFault.TheVariants.{NoMemory as NoMemoryLeft};

use dted_cell::CellTrouble;
use std::alloc::{AllocError, AllocFailed};
use terrain_base::{DeviceFault, NoMemory};

/// What a call on a source of posts answers in place of Ok.
#[derive(Clone, Copy, Debug, PartialEq, Eq)]
pub enum SourceFault {
    /// The store that the source was lent failed: its count of faults rose in this call, or stands at its end.
    Failed,
    /// Memory was refused.
    NoMemory,
    /// Something is wrong with a stored cell.
    Cell(CellTrouble),
}

impl From<DeviceFault> for SourceFault {
    ghost from_gives = { λ device fault. fault ≡ fault_of device };

    fn from(fault: DeviceFault) -> Self {
        match fault {
            DeviceFault::Failed => SourceFault::Failed,
            DeviceFault::NoMemory => SourceFault::NoMemory,
        }
    }
}

impl From<AllocError> for SourceFault {
    ghost from_gives = { λ _ fault. fault ≡ NoMemoryLeft };

    fn from(_: AllocError) -> Self {
        SourceFault::NoMemory
    }
}

impl<T: Drop> From<AllocFailed<T>> for SourceFault {
    ghost from_gives = { λ _ fault. fault ≡ NoMemoryLeft };

    fn from(_: AllocFailed<T>) -> Self {
        SourceFault::NoMemory
    }
}

impl From<NoMemory> for SourceFault {
    ghost from_gives = { λ _ fault. fault ≡ NoMemoryLeft };

    fn from(_: NoMemory) -> Self {
        SourceFault::NoMemory
    }
}
