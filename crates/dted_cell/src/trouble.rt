// What is wrong with a stored cell.
use crate::CellRefusal;
use terrain_base::{CellLevel, Name, Square};

/// What is wrong with a stored cell, under the name that the cell of a key should be stored under.
#[derive(Clone, Copy, Debug, PartialEq, Eq)]
pub enum CellTrouble {
    /// No file is held under the name.
    Lost {
        name: Name,
    },
    /// The file is no cell.
    Bad {
        name: Name,
        refusal: CellRefusal,
    },
    /// The file is a cell of another square than the key's.
    Elsewhere {
        name: Name,
        found: Square,
    },
    /// The file is a cell of the key's square, but of another level than the key's, with which it was opened.
    Changed {
        name: Name,
        opened: CellLevel,
        found: CellLevel,
    },
}
