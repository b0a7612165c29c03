// A cell in short, read record by record.
ghost use Rattle.std.specs.Prelude.{◌≡◌, ℕ, ◌+◌, ◌*◌, ◌≤◌, List, length, true, IfOk, IfSome};
ghost use Rattle.std.specs.Io.KnownBytes.{Consumes};
ghost use Rattle.dted_cell.specs.Facts.{IsFront, IsColumn, AreRecords, AreFacts};

use crate::counts::{Counts, join};
use crate::header::{HEADER_LENGTH, Header, read_header};
use crate::lead::lead;
use crate::record::{counts_of, record_length};
use std::alloc::Global;
use std::io::{self, ErrorKind, Read};
use terrain_base::{CellLevel, Extremes, Square};

/// A cell in short, without its posts.
#[derive(Clone, Copy)]
pub struct CellFacts {
    /// The cell's square.
    pub square: Square,
    /// The cell's level.
    pub level: CellLevel,
    /// How many posts are void.
    pub voids: u32,
    /// The least and the greatest post, unless every post is void.
    pub extremes: Option<Extremes>,
}

// Fills room with the next bytes of a reader, where it has so many.
fn fills<R: Read>(reader: &mut R, room: &mut [u8]) -> io::Result<bool>
    ensures { IfOk result (λ full. full ≡ true →
        Consumes (R.remaining reader.old) (R.remaining reader.new) room.new) }
{
    match reader.read_exact(room) {
        Ok(()) => Ok(true),
        Err(error) if error.kind() == ErrorKind::UnexpectedEof => Ok(false),
        Err(error) => Err(error),
    }
}

// Reads the header into room for it, where it is a good one and stands at the very start.
fn read_front<R: Read>(reader: &mut R, room: &mut [u8]) -> io::Result<Option<Header>>
    requires { length room.old ≡ 3428 }
    ensures { IfOk result (λ found. IfSome found (λ header.
        Consumes (R.remaining reader.old) (R.remaining reader.new) room.new × IsFront room.new header)) }
{
    if !fills(reader, room)? {
        return Ok(None);
    }
    if lead(room) != 0 {
        return Ok(None);
    }
    Ok(read_header(room).ok())
}

// What the posts of the next record are counted to, where it is the good one of this column. The record is read
// into room for one.
fn read_column<R: Read>(
    reader: &mut R,
    room: &mut [u8],
    rows: u16,
    col: u16,
) -> io::Result<Option<Counts>>
    requires { length room.old ≡ 12 + 2 * rows }
    ensures column { IfOk result (λ found. IfSome found (λ counts.
        Consumes (R.remaining reader.old) (R.remaining reader.new) room.new × IsColumn room.new rows col counts)) }
    ensures few { IfOk result (λ found. IfSome found (λ counts. counts.voids ≤ rows)) }
{
    if !fills(reader, room)? {
        return Ok(None);
    }
    Ok(counts_of(room, rows, col))
}

// What the posts of all records are counted to, where all are good. Each is read into the same room.
fn read_columns<R: Read>(
    reader: &mut R,
    room: &mut [u8],
    columns: u16,
    rows: u16,
) -> io::Result<Option<Counts>>
    requires { length room.old ≡ 12 + 2 * rows }
    ensures { IfOk result (λ found. IfSome found (λ counts. (records : List ℕ) ×
        Consumes (R.remaining reader.old) (R.remaining reader.new) records × AreRecords records rows columns counts)) }
{
    let mut counts = Counts {
        voids: 0,
        extremes: None,
    };
    for col in 0..columns {
        let Some(column) = read_column(reader, room, rows, col)? else {
            return Ok(None);
        };
        counts = Counts {
            voids: counts.voids + column.voids,
            extremes: join(counts.extremes, column.extremes),
        };
    }
    Ok(Some(counts))
}

/// Reads a cell whose header stands at the very start, with no tape labels before it, record by record, through room
/// for one record. `None` says nothing of the bytes: then they are to be read whole by
/// [`CellView::read`](crate::CellView::read), which gives the refusal. Bytes behind the last record are not read.
pub fn read_facts<R: Read>(alloc: Global, reader: &mut R) -> io::Result<Option<CellFacts>>
    ensures facts { IfOk result (λ found. IfSome found (λ facts.
        IfSome (R.remaining reader.old) (λ bytes. AreFacts bytes facts))) }
{
    let mut front = vec![in alloc; 0u8; HEADER_LENGTH]?;
    let Some(header) = read_front(reader, &mut front)? else {
        return Ok(None);
    };
    let mut room = vec![in alloc; 0u8; record_length(header.rows)]?;
    let Some(counts) = read_columns(reader, &mut room, header.columns, header.rows)? else {
        return Ok(None);
    };
    Ok(Some(CellFacts {
        square: header.square,
        level: header.level,
        voids: counts.voids,
        extremes: counts.extremes,
    }))
}
