// The bytes of a cell, owned.
ghost use Rattle.std.specs.Prelude.{◌≡◌, ◌↔◌, List, ℕ, Some, None, IfOk, IfErr, IsOk};
ghost use Rattle.dted_cell.specs.Cell.{IsSomeCell};
ghost use Rattle.dted_cell.specs.Refusal.{refusal_of};

use crate::cell::read_cell;
use crate::counts::Counts;
use crate::header::Header;
use crate::{CellRefusal, CellView};
use std::marker::Model;

/// The bytes of a file that is a cell. It is seen as these bytes.
#[derive(Drop)]
pub struct CellBytes {
    bytes: Vec<u8>,
    header: Header,
    counts: Counts,
}

/// The bytes of a file that is no cell, and why.
#[derive(Drop)]
pub struct RefusedCell {
    pub refusal: CellRefusal,
    pub bytes: Vec<u8>,
}

impl Model for CellBytes {
    ghost use Rattle.std.specs.Prelude.{List, ℕ};
    ghost use Rattle.dted_cell.specs.Counts.{IsCounted};
    ghost use Rattle.dted_cell.specs.Good.{IsGood};

    ghost Value = { List ℕ };

    ghost view = { λ c. c.bytes.items };

    ghost invariant = { λ c. IsGood c.bytes.items c.header × IsCounted c.bytes.items c.counts };
}

impl CellBytes {
    /// Takes the bytes of a cell, or hands them back with the refusal that `CellView::read` gives.
    pub fn check(bytes: Vec<u8>) -> Result<CellBytes, RefusedCell>
        ensures ok { IsOk result ↔ IsSomeCell bytes.items }
        ensures bytes { IfOk result (λ cell. cell ≡ bytes.items) }
        ensures refusal { IfErr result (λ refused. refusal_of bytes.items ≡ Some refused.refusal) }
        ensures returned { IfErr result (λ refused. refused.bytes ≡ bytes) }
    {
        match read_cell(&bytes) {
            Ok((header, counts)) => Ok(CellBytes {
                bytes,
                header,
                counts,
            }),
            Err(refusal) => Err(RefusedCell { refusal, bytes }),
        }
    }

    /// The cell, where its bytes lie. Nothing is read again.
    pub fn view(&self) -> CellView<'_>
        ensures { result ≡ self.now }
    {
        CellView::of(&self.bytes, self.header, self.counts)
    }

    /// The file's bytes.
    pub fn bytes(&self) -> &[u8]
        ensures value { result.now ≡ self.now }
        ensures cell { refusal_of self.now ≡ None }
    {
        &self.bytes
    }
}
