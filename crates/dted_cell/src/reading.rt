// Cells in short, out of files that are not held whole.
ghost use Rattle.dted_cell.specs.Facts.{AreFacts};

use crate::facts::{CellFacts, read_facts};
use std::alloc::Global;
use std::io::{self, Read};
use terrain_base::Reading;

/// Looks for the cell of a file in short, by [`read_facts`].
#[derive(Clone, Copy)]
pub struct FactsReading {
    /// Where the room for one data record is taken from.
    pub alloc: Global,
}

impl Reading for FactsReading {
    type Found = CellFacts;

    ghost tells = { λ _ bytes facts. AreFacts bytes facts };

    fn find<R: Read>(&self, reader: &mut R) -> io::Result<Option<CellFacts>> {
        read_facts(self.alloc, reader)
    }
}
