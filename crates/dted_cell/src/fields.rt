// The fields of a cell's header: the origin, the intervals and the counts.
ghost use Rattle.std.specs.Prelude.{◌≡◌, ◌+◌, ◌-◌, ◌*◌, ◌≤◌, length, not, if◌then◌else◌, IfOk};
ghost use Rattle.std.specs.Result.{result_err};
ghost use Rattle.common_laws.specs.First.{◌when◌, first_of};
ghost use Rattle.dted_cell.specs.Field.{number_at, is_number};
ghost use Rattle.dted_cell.specs.Fields.{SaysAngle, SaysLattice, SaysFields};
ghost use Rattle.dted_cell.specs.Refusal.{angle_conditions, lattice_conditions, field_conditions};

use crate::CellRefusal;
use crate::field::number;

// An angle of the origin.
#[derive(Clone, Copy)]
pub(crate) struct Angle {
    // Degrees east of 180 degrees west, or north of the south pole.
    pub(crate) degrees: u16,
    // Its minutes and seconds are 0.
    pub(crate) is_whole: bool,
}

// The intervals, in tenths of an arc-second, and the counts of meridians and of posts on each.
#[derive(Clone, Copy)]
pub(crate) struct Lattice {
    pub(crate) lon_interval: u16,
    pub(crate) lat_interval: u16,
    pub(crate) columns: u16,
    pub(crate) rows: u16,
}

// What a header's fields say.
#[derive(Clone, Copy)]
pub(crate) struct Fields {
    pub(crate) lon: Angle,
    pub(crate) lat: Angle,
    pub(crate) lattice: Lattice,
}

// The number in the field from one byte up to another, or the refusal of its offset.
fn required(text: &[u8], from: u16, to: u16) -> Result<u16, CellRefusal>
    requires ordered { from ≤ to }
    requires narrow { to ≤ from + 4 }
    requires within { to ≤ length text.now }
    ensures refusal { result_err result ≡ (CellRefusal.BadField from when not (is_number text.now from to)) }
    ensures value { IfOk result (λ n. n ≡ number_at text.now from to) }
{
    match number(&text[from as usize..to as usize]) {
        Some(n) => Ok(n),
        None => Err(CellRefusal::BadField { offset: from }),
    }
}

// Degrees on either side of the middle of two halves, from the end of the negative one.
fn from_end(half: u16, degrees: u16, is_positive: bool) -> u16
    requires within { degrees ≤ half }
    requires small { half ≤ 180 }
    ensures value { result ≡ (if is_positive then half + degrees else (half - degrees)) }
    ensures in_range { result ≤ 2 * half }
{
    if is_positive {
        half + degrees
    } else {
        half - degrees
    }
}

// The angle at an offset, with one of two letters, or the refusal of its first bad field.
#[tactic(auto, unfolding(crate::specs::Refusal::angle_conditions))]
fn read_angle(
    text: &[u8],
    at: u16,
    half: u16,
    positive: u8,
    negative: u8,
) -> Result<Angle, CellRefusal>
    requires in_label { at + 8 ≤ 80 }
    requires within { 80 ≤ length text.now }
    requires small { half ≤ 180 }
    ensures refusal { result_err result ≡ first_of (angle_conditions text.now at half positive negative) }
    ensures says { IfOk result (SaysAngle text.now at half positive) }
{
    let degrees = required(text, at, at + 3)?;
    if degrees > half {
        return Err(CellRefusal::BadField { offset: at });
    }
    let minutes = required(text, at + 3, at + 5)?;
    let seconds = required(text, at + 5, at + 7)?;
    let letter = text[at as usize + 7];
    if letter != positive && letter != negative {
        return Err(CellRefusal::BadField { offset: at + 7 });
    }
    let degrees = from_end(half, degrees, letter == positive);
    Ok(Angle {
        degrees,
        is_whole: minutes == 0 && seconds == 0,
    })
}

// The intervals and the counts, or the refusal of the first that is bad.
#[tactic(auto, unfolding(crate::specs::Refusal::lattice_conditions))]
fn read_lattice(text: &[u8]) -> Result<Lattice, CellRefusal>
    requires { 80 ≤ length text.now }
    ensures refusal { result_err result ≡ first_of (lattice_conditions text.now) }
    ensures says { IfOk result (SaysLattice text.now) }
{
    let lon_interval = required(text, 20, 24)?;
    let lat_interval = required(text, 24, 28)?;
    let columns = required(text, 47, 51)?;
    let rows = required(text, 51, 55)?;
    Ok(Lattice {
        lon_interval,
        lat_interval,
        columns,
        rows,
    })
}

// The fields, or the refusal of the first that is bad.
#[tactic(auto, using(crate::proofs::First::fields_first))]
pub(crate) fn read_fields(text: &[u8]) -> Result<Fields, CellRefusal>
    requires { 80 ≤ length text.now }
    ensures refusal { result_err result ≡ first_of (field_conditions text.now) }
    ensures says { IfOk result (SaysFields text.now) }
{
    let lon = read_angle(text, 4, 180, b'E', b'W')?;
    let lat = read_angle(text, 12, 90, b'N', b'S')?;
    let lattice = read_lattice(text)?;
    Ok(Fields { lon, lat, lattice })
}
