// The data records.
ghost use Rattle.std.specs.Prelude.{
  ◌≡◌,
  ◌+◌,
  ◌*◌,
  ◌^◌,
  ◌<◌,
  ◌≤◌,
  length,
  ◌↔◌,
  map,
  flat_map,
  fold,
  sum,
  sum_by,
  count_by,
  IsSome,
  IfSome,
  IfOk,
  None,
};
ghost use Rattle.std.specs.Result.{result_err};
ghost use Rattle.std.specs.List.{range_with_len};
ghost use Rattle.common_laws.specs.First.{◌when◌, first_of};
ghost use Rattle.dted_cell.specs.Elevation.{signed_of, is_out_of_range};
ghost use Rattle.dted_cell.specs.Record.{record_at, elevation_at, posts_at, posts_of, AreRecord, IsRecord};
ghost use Rattle.dted_cell.specs.Cell.{is_void_post, widened};
ghost use Rattle.dted_cell.specs.Refusal.{height_condition, record_conditions};

use crate::CellRefusal;
use crate::counts::{Counts, join};
use crate::elevation::{HIGHEST, VOID, signed};
use crate::field::{long, word};
use crate::header::HEADER_LENGTH;
use crate::tally::tally_of;

// The byte that a data record begins with.
const SENTINEL: u8 = 0xAA;

// How many bytes a record has.
pub(crate) fn record_length(rows: u16) -> usize
    ensures { result ≡ 12 + 2 * rows }
{
    12 + 2 * rows as usize
}

// Where the record of a column begins.
pub(crate) fn record_start(rows: u16, col: u16) -> usize
    ensures { result ≡ record_at rows col }
{
    HEADER_LENGTH + col as usize * record_length(rows)
}

// The refusal of a height, by its word.
fn height_refusal(word: u16, col: u16, row: u16) -> Option<CellRefusal>
    ensures { result ≡ (CellRefusal.HeightOutOfRange col row (signed_of word) when is_out_of_range word) }
{
    if word != VOID && word % 0x8000 > HIGHEST {
        Some(CellRefusal::HeightOutOfRange {
            col,
            row,
            value: signed(word),
        })
    } else {
        None
    }
}

// The refusal of the southernmost height of a column that is out of range.
#[tactic(auto, using(common_laws::proofs::First::map_next, common_laws::proofs::First::map_found))]
fn heights_refusal(text: &[u8], rows: u16, col: u16) -> Option<CellRefusal>
    requires { record_at rows (col + 1) ≤ length text.now }
    ensures { result ≡ first_of (map (height_condition text.now rows col) (range_with_len 0 rows)) }
{
    let start = record_start(rows, col) + 8;
    for row in 0..rows {
        if let Some(refusal) = height_refusal(word(text, start + 2 * row as usize), col, row) {
            return Some(refusal);
        }
    }
    None
}

// The sum of bytes.
fn summed(bytes: &[u8]) -> u32
    requires { length bytes.now < 2 ^ 20 }
    ensures { result ≡ sum bytes.now }
{
    bytes.iter().map(|byte| u32::from(*byte)).sum()
}

// What the posts of a column's record are counted to, by the bytes of the record, where they are good.
pub(crate) fn counts_of(bytes: &[u8], rows: u16, col: u16) -> Option<Counts>
    requires { length bytes.now ≡ 12 + 2 * rows }
    ensures good { IsSome result ↔ AreRecord bytes.now rows col }
    ensures voids { IfSome result (λ counts. counts.voids ≡ count_by is_void_post (posts_of bytes.now rows)) }
    ensures few { IfSome result (λ counts. counts.voids ≤ rows) }
    ensures extremes { IfSome result (λ counts. counts.extremes ≡ fold widened None (posts_of bytes.now rows)) }
{
    let end = 8 + 2 * rows as usize;
    if bytes[0] != SENTINEL {
        return None;
    }
    if word(bytes, 4) != col {
        return None;
    }
    let tally = tally_of(&bytes[8..end], rows)?;
    if long(bytes, end) != summed(&bytes[..8]) + tally.sum {
        return None;
    }
    Some(tally.counts)
}

// What the posts of a column's record are counted to, where the record is good.
fn good_record(text: &[u8], rows: u16, col: u16) -> Option<Counts>
    requires { record_at rows (col + 1) ≤ length text.now }
    ensures good { IsSome result ↔ IsRecord text.now rows col }
    ensures voids { IfSome result (λ counts. counts.voids ≡ count_by is_void_post (posts_at text.now rows col)) }
    ensures few { IfSome result (λ counts. counts.voids ≤ rows) }
    ensures extremes { IfSome result (λ counts.
        counts.extremes ≡ fold widened None (posts_at text.now rows col)) }
{
    let start = record_start(rows, col);
    counts_of(&text[start..start + record_length(rows)], rows, col)
}

// The refusal of a column's record.
fn record_refusal(text: &[u8], rows: u16, col: u16) -> Option<CellRefusal>
    requires { record_at rows (col + 1) ≤ length text.now }
    ensures { result ≡ first_of (record_conditions text.now rows col) }
{
    let start = record_start(rows, col);
    let end = start + 8 + 2 * rows as usize;
    if text[start] != SENTINEL {
        return Some(CellRefusal::BadSentinel { col });
    }
    if word(text, start + 4) != col {
        return Some(CellRefusal::BadColumn { col });
    }
    let stated = long(text, end);
    let sum = summed(&text[start..end]);
    if stated != sum {
        return Some(CellRefusal::BadChecksum {
            col,
            stated,
            summed: sum,
        });
    }
    heights_refusal(text, rows, col)
}

// What the posts of a column's record are counted to, or its refusal. Only a record with a fault is walked.
fn record_counts(text: &[u8], rows: u16, col: u16) -> Result<Counts, CellRefusal>
    requires { record_at rows (col + 1) ≤ length text.now }
    ensures refusal { result_err result ≡ first_of (record_conditions text.now rows col) }
    ensures voids { IfOk result (λ counts. counts.voids ≡ count_by is_void_post (posts_at text.now rows col)) }
    ensures few { IfOk result (λ counts. counts.voids ≤ rows) }
    ensures extremes { IfOk result (λ counts.
        counts.extremes ≡ fold widened None (posts_at text.now rows col)) }
{
    if let Some(counts) = good_record(text, rows, col) {
        return Ok(counts);
    }
    let Some(refusal) = record_refusal(text, rows, col) else {
        unreachable!()
    };
    Err(refusal)
}

// What the posts of all records are counted to, or the refusal of the westernmost record that is not good.
#[tactic(auto, using(common_laws::proofs::First::flat_next, crate::proofs::Columns::sum_next, crate::proofs::Columns::extremes_next))]
pub(crate) fn records_counts(text: &[u8], columns: u16, rows: u16) -> Result<Counts, CellRefusal>
    requires { record_at rows columns ≤ length text.now }
    ensures refusal { result_err result ≡
        first_of (flat_map (record_conditions text.now rows) (range_with_len 0 columns)) }
    ensures voids { IfOk result (λ counts. counts.voids ≡
        sum_by (count_by is_void_post) (map (posts_at text.now rows) (range_with_len 0 columns))) }
    ensures extremes { IfOk result (λ counts. counts.extremes ≡
        fold (fold widened) None (map (posts_at text.now rows) (range_with_len 0 columns))) }
{
    let mut counts = Counts {
        voids: 0,
        extremes: None,
    };
    for col in 0..columns {
        let record = match record_counts(text, rows, col) {
            Ok(record) => record,
            Err(refusal) => return Err(refusal),
        };
        counts = Counts {
            voids: counts.voids + record.voids,
            extremes: join(counts.extremes, record.extremes),
        };
    }
    Ok(counts)
}
