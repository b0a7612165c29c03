// What the calls on a database may answer in place of Ok.
ghost use Rattle.std.specs.Prelude.{◌≡◌};
ghost use Rattle.database.specs.Answer.{of_device, of_source};
ghost use Rattle.database.specs.declared.answer.EngineAnswer.TheVariants.{NoMemory as NoMemoryLeft};

use cell_mosaic::SourceFault;
use dted_cell::CellTrouble;
use std::alloc::{AllocError, AllocFailed};
use terrain_base::{CellLevel, DeviceFault, Name, NoMemory, Square, TileId};

/// What a call on a database answers in place of Ok. The printed numbers of refusals stand beside them.
#[derive(Clone, Copy, Debug, PartialEq, Eq)]
pub enum EngineAnswer {
    /// K1. The square has a cell of this level, so none can be added.
    CellPresent { square: Square, level: CellLevel },
    /// K2. The square has no cell of this level, so it can't be replaced or removed.
    CellAbsent { square: Square, level: CellLevel },
    /// K3. There are 4096 cells.
    DatabaseFull,
    /// K4. The store holds this name, the least of those that it holds, so no database can begin in it.
    NotEmpty { name: Name },
    /// K5. No manifest is held (line 0), or it is refused for this line.
    NotADatabase { line: u32 },
    /// K6 to K9. Something is wrong with a stored cell.
    Trouble(CellTrouble),
    /// K10. The tile does not exist.
    NoTile { tile: TileId },
    /// K11. The tile exists, and this file of it is not held.
    TileLost { name: Name },
    /// K12. The manifest is of this version, which is before this program's.
    OldVersion { version: u32 },
    /// K13. The manifest is of this version, which is this program's, so there is nothing to bring to it.
    NotOld { version: u32 },
    /// The store failed: its count of faults rose in this call, or stands at its end.
    StoreFault,
    /// Memory was refused.
    NoMemory,
}

impl From<DeviceFault> for EngineAnswer {
    ghost from_gives = { λ fault answer. answer ≡ of_device fault };

    fn from(fault: DeviceFault) -> Self {
        match fault {
            DeviceFault::Failed => EngineAnswer::StoreFault,
            DeviceFault::NoMemory => EngineAnswer::NoMemory,
        }
    }
}

impl From<SourceFault> for EngineAnswer {
    ghost from_gives = { λ fault answer. answer ≡ of_source fault };

    fn from(fault: SourceFault) -> Self {
        match fault {
            SourceFault::Failed => EngineAnswer::StoreFault,
            SourceFault::NoMemory => EngineAnswer::NoMemory,
            SourceFault::Cell(trouble) => EngineAnswer::Trouble(trouble),
        }
    }
}

impl From<NoMemory> for EngineAnswer {
    ghost from_gives = { λ _ answer. answer ≡ NoMemoryLeft };

    fn from(_: NoMemory) -> Self {
        EngineAnswer::NoMemory
    }
}

impl From<AllocError> for EngineAnswer {
    ghost from_gives = { λ _ answer. answer ≡ NoMemoryLeft };

    fn from(_: AllocError) -> Self {
        EngineAnswer::NoMemory
    }
}

impl<T: Drop> From<AllocFailed<T>> for EngineAnswer {
    ghost from_gives = { λ _ answer. answer ≡ NoMemoryLeft };

    fn from(_: AllocFailed<T>) -> Self {
        EngineAnswer::NoMemory
    }
}
