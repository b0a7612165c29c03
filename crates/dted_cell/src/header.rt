// The header of a cell.
ghost use Rattle.std.specs.Prelude.{
  ◌≡◌,
  ◌+◌,
  ◌*◌,
  ◌==◌,
  ◌<◌,
  ◌≤◌,
  ◌&&◌,
  ◌||◌,
  ◌++◌,
  length,
  not,
  Some,
  None,
  if◌then◌else◌,
  IfOk,
};
ghost use Rattle.std.specs.Result.{result_err};
ghost use Rattle.common_laws.specs.First.{first_of};
ghost use Rattle.terrain_base.specs.Level.{rows_of, columns_of};
ghost use Rattle.dted_cell.specs.Fields.{SaysHeader};
ghost use Rattle.dted_cell.specs.Header.{square_of, square_at, level_of_interval, level_at, series_of};
ghost use Rattle.dted_cell.specs.Refusal.{field_conditions, shape_conditions, label_conditions, text_conditions, header_conditions};

use crate::CellRefusal;
use crate::field::has_word;
use crate::fields::{Fields, read_fields};
use crate::lead::{behind, lead};
use terrain_base::{CellLevel, Square, columns, lon_step, rows};

// How many bytes the header has.
pub(crate) const HEADER_LENGTH: usize = 3428;

// What a good header says.
#[derive(Clone, Copy)]
pub(crate) struct Header {
    // How many bytes stand before it.
    pub(crate) lead: usize,
    pub(crate) square: Square,
    pub(crate) level: CellLevel,
    pub(crate) columns: u16,
    pub(crate) rows: u16,
}

// The square at these degrees east of 180 degrees west and north of the south pole. There is none at
// the north pole.
fn square_from(lon: u16, lat: u16) -> Option<Square>
    requires { lat ≤ 180 }
    ensures { result ≡ (if lat == 180 then None else Some (square_of lon lat)) }
{
    if lat == 180 {
        return None;
    }
    Some(Square {
        lat,
        lon: lon % 360,
    })
}

// The square at the origin, unless that is no corner of a square.
fn square(fields: &Fields) -> Option<Square>
    requires { fields.now.lat.degrees ≤ 180 }
    ensures { result ≡ (if not (fields.now.lon.is_whole && fields.now.lat.is_whole) || fields.now.lat.degrees == 180
        then None else Some (square_of fields.now.lon.degrees fields.now.lat.degrees)) }
{
    if !(fields.lon.is_whole && fields.lat.is_whole) {
        return None;
    }
    square_from(fields.lon.degrees, fields.lat.degrees)
}

// The level of a latitude interval in tenths of an arc-second.
fn level(lat_interval: u16) -> Option<CellLevel>
    ensures { result ≡ level_of_interval lat_interval }
{
    match lat_interval {
        300 => Some(CellLevel::Zero),
        30 => Some(CellLevel::One),
        10 => Some(CellLevel::Two),
        _ => None,
    }
}

// A square and a level.
#[derive(Clone, Copy)]
struct Shape {
    square: Square,
    level: CellLevel,
}

// The square and the level of a header, or the refusal of its first bad field, of its origin, its
// spacing or its counts.
#[tactic(auto, using(crate::proofs::Shapes::shape_first))]
fn read_shape(text: &[u8]) -> Result<Shape, CellRefusal>
    requires { 80 ≤ length text.now }
    ensures refusal { result_err result ≡ first_of (field_conditions text.now ++ shape_conditions text.now) }
    ensures square { IfOk result (λ shape. shape.square ≡ square_at text.now) }
    ensures level { IfOk result (λ shape. shape.level ≡ level_at text.now) }
{
    let fields = read_fields(text)?;
    let Some(square) = square(&fields) else {
        return Err(CellRefusal::OffDegree);
    };
    let Some(level) = level(fields.lattice.lat_interval) else {
        return Err(CellRefusal::WrongSpacing);
    };
    if fields.lattice.lon_interval != 10 * lon_step(square, level) {
        return Err(CellRefusal::WrongSpacing);
    }
    if fields.lattice.columns != columns(square, level) || fields.lattice.rows != rows(level) {
        return Err(CellRefusal::WrongCounts);
    }
    Ok(Shape { square, level })
}

// The series designator of a level.
fn series(level: CellLevel) -> &'static [u8; 5]
    ensures { result.now ≡ series_of level }
{
    match level {
        CellLevel::Zero => b"DTED0",
        CellLevel::One => b"DTED1",
        CellLevel::Two => b"DTED2",
    }
}

// The refusal of the labels behind the user header label, at a level.
#[tactic(auto, unfolding(crate::specs::Refusal::label_conditions))]
fn label_refusal(text: &[u8], level: CellLevel) -> Option<CellRefusal>
    requires long { 3428 ≤ length text.now }
    requires level { level ≡ level_at text.now }
    ensures { result ≡ first_of (label_conditions text.now) }
{
    if !has_word(text, 80, b"DSI") {
        return Some(CellRefusal::NoDsi);
    }
    if !has_word(text, 139, series(level)) {
        return Some(CellRefusal::SeriesDisagrees);
    }
    if !has_word(text, 224, b"WGS84") {
        return Some(CellRefusal::NotWgs84);
    }
    if !has_word(text, 728, b"ACC") {
        return Some(CellRefusal::NoAcc);
    }
    None
}

// Reads the header where a text begins with one, or refuses by the first of its conditions.
#[tactic(auto, using(crate::proofs::Headers::text_first))]
fn read_text(text: &[u8]) -> Result<Shape, CellRefusal>
    requires { 3428 ≤ length text.now }
    ensures refusal { result_err result ≡ first_of (text_conditions text.now) }
    ensures square { IfOk result (λ shape. shape.square ≡ square_at text.now) }
    ensures level { IfOk result (λ shape. shape.level ≡ level_at text.now) }
{
    if !has_word(text, 0, b"UHL1") {
        return Err(CellRefusal::NoUhl);
    }
    let shape = read_shape(text)?;
    match label_refusal(text, shape.level) {
        Some(refusal) => Err(refusal),
        None => Ok(shape),
    }
}

// Reads the header of a file, behind its lead, or refuses by the first of the header's conditions.
#[tactic(auto, unfolding(crate::specs::Refusal::header_conditions))]
pub(crate) fn read_header(bytes: &[u8]) -> Result<Header, CellRefusal>
    ensures refusal { result_err result ≡ first_of (header_conditions bytes.now) }
    ensures says { IfOk result (SaysHeader bytes.now) }
    ensures long { IfOk result (λ header. header.lead + 3428 ≤ length bytes.now) }
{
    let lead = lead(bytes);
    if bytes.len() < lead + HEADER_LENGTH {
        return Err(CellRefusal::TooShort {
            need: (lead + HEADER_LENGTH) as u64,
            have: bytes.len() as u64,
        });
    }
    let shape = read_text(behind(bytes, lead))?;
    Ok(header_of(lead, shape))
}

// The header of a square and a level.
fn header_of(lead: usize, shape: Shape) -> Header
    ensures lead { result.lead ≡ lead }
    ensures square { result.square ≡ shape.square }
    ensures level { result.level ≡ shape.level }
    ensures columns { result.columns ≡ columns_of shape.square shape.level }
    ensures rows { result.rows ≡ rows_of shape.level }
{
    let Shape { square, level } = shape;
    Header {
        lead,
        square,
        level,
        columns: columns(square, level),
        rows: rows(level),
    }
}
