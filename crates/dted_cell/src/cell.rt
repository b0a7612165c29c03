// A whole file.
ghost use Rattle.std.specs.Prelude.{◌≡◌, ◌+◌, ◌≤◌, length, IfOk};
ghost use Rattle.std.specs.Result.{result_err};
ghost use Rattle.common_laws.specs.First.{first_of};
ghost use Rattle.dted_cell.specs.Fields.{SaysHeader};
ghost use Rattle.dted_cell.specs.Counts.{IsCounted};
ghost use Rattle.dted_cell.specs.Good.{IsGood};
ghost use Rattle.dted_cell.specs.Record.{record_at};
ghost use Rattle.dted_cell.specs.Refusal.{data_conditions, refusal_of};

use crate::CellRefusal;
use crate::counts::Counts;
use crate::header::{Header, read_header};
use crate::lead::behind;
use crate::record::{record_start, records_counts};

// What the posts behind a header are counted to, or the refusal of what follows it.
#[tactic(auto, unfolding(crate::specs::Refusal::data_conditions))]
fn data_counts(bytes: &[u8], header: &Header) -> Result<Counts, CellRefusal>
    requires says { SaysHeader bytes.now header.now }
    requires long { header.now.lead + 3428 ≤ length bytes.now }
    ensures refusal { result_err result ≡
        first_of (data_conditions bytes.now header.now.columns header.now.rows) }
    ensures counted { IfOk result (IsCounted bytes.now) }
{
    let need = header.lead + record_start(header.rows, header.columns);
    if bytes.len() < need {
        return Err(CellRefusal::TooShort {
            need: need as u64,
            have: bytes.len() as u64,
        });
    }
    records_counts(behind(bytes, header.lead), header.columns, header.rows)
}

// Reads a file's header and counts its posts, where the file is a cell, or refuses it by the first condition that
// holds. The data records are read once.
#[tactic(auto, using(crate::proofs::Cells::refusal_parts))]
pub(crate) fn read_cell(bytes: &[u8]) -> Result<(Header, Counts), CellRefusal>
    ensures refusal { result_err result ≡ refusal_of bytes.now }
    ensures good { IfOk result (λ read. IsGood bytes.now read.0) }
    ensures counted { IfOk result (λ read. IsCounted bytes.now read.1) }
{
    let header = read_header(bytes)?;
    match data_counts(bytes, &header) {
        Err(refusal) => Err(refusal),
        Ok(counts) => Ok((header, counts)),
    }
}
