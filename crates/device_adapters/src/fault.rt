// Faults of real files.
ghost use Rattle.std.specs.Prelude.{◌≡◌, ◌≤◌};
ghost use Rattle.terrain_base.specs.Cause.{Rose};

use std::io::{self, ErrorKind};
use terrain_base::DeviceFault;

// Counts a fault, unless memory was refused.
pub(crate) fn counted(faults: &mut u64, error: &io::Error) -> DeviceFault
    ensures cause { result ≡ DeviceFault.Failed → Rose faults.old faults.new }
    ensures later { faults.old ≤ faults.new }
{
    if error.kind() == ErrorKind::OutOfMemory {
        return DeviceFault::NoMemory;
    }
    *faults = faults.saturating_add(1);
    DeviceFault::Failed
}

// A path that leads to nothing, or through a plain file, is of no file.
pub(crate) fn is_absent(error: &io::Error) -> bool {
    matches!(error.kind(), ErrorKind::NotFound | ErrorKind::NotADirectory)
}
