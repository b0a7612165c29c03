// The header of a cell that is to be written.
ghost use Rattle.std.specs.Prelude.{◌≡◌, ◌<◌, [], ◌∷◌, ◌++◌, codes, IfOk};
ghost use Rattle.dted_cell.specs.Header.{series_of};
ghost use Rattle.dted_write.specs.Header.{
  three_digits,
  four_digits,
  degrees_of_lon,
  letter_of_lon,
  degrees_of_lat,
  letter_of_lat,
  user_label,
  data_set,
  accuracy,
  header_text,
};

use std::alloc::Global;
use terrain_base::{CellLevel, NoMemory, Square, columns, lat_step, lon_step, rows};

/// A number in three decimal digits.
fn three_digits(n: u16) -> [u8; 3]
    requires { n < 1000 }
    ensures { result ≡ three_digits n }
{
    [
        b'0' + (n / 100) as u8,
        b'0' + (n / 10 % 10) as u8,
        b'0' + (n % 10) as u8,
    ]
}

/// A number in four decimal digits.
fn four_digits(n: u16) -> [u8; 4]
    requires { n < 10000 }
    ensures { result ≡ four_digits n }
{
    [
        b'0' + (n / 1000) as u8,
        b'0' + (n / 100 % 10) as u8,
        b'0' + (n / 10 % 10) as u8,
        b'0' + (n % 10) as u8,
    ]
}

/// A longitude's degrees from the prime meridian, and the letter of its hemisphere.
fn split_lon(lon: u16) -> (u16, u8)
    requires { lon < 360 }
    ensures degrees { result.0 ≡ degrees_of_lon lon }
    ensures letter { result.1 ≡ letter_of_lon lon }
{
    if lon >= 180 {
        (lon - 180, b'E')
    } else {
        (180 - lon, b'W')
    }
}

/// A latitude's degrees from the equator, and the letter of its hemisphere.
fn split_lat(lat: u16) -> (u16, u8)
    requires { lat < 180 }
    ensures degrees { result.0 ≡ degrees_of_lat lat }
    ensures letter { result.1 ≡ letter_of_lat lat }
{
    if lat >= 90 {
        (lat - 90, b'N')
    } else {
        (90 - lat, b'S')
    }
}

/// An origin's degrees, with no minutes and no seconds, and the letter of the hemisphere.
fn angle(degrees: u16, letter: u8) -> [u8; 8]
    requires { degrees < 1000 }
    ensures { result ≡ three_digits degrees ++ codes "0000" ++ letter ∷ [] }
{
    let [hundreds, tens, ones] = three_digits(degrees);
    [hundreds, tens, ones, b'0', b'0', b'0', b'0', letter]
}

/// The user header label.
#[tactic(auto, unfolding(crate::specs::Header::user_label))]
fn user_label(alloc: Global, square: Square, level: CellLevel) -> Result<Vec<u8>, NoMemory>
    ensures { IfOk result (λ label. label.items ≡ user_label square level) }
{
    let (lon, east_or_west) = split_lon(square.lon());
    let (lat, north_or_south) = split_lat(square.lat());
    let mut label = b"UHL1".to_vec(alloc)?;
    label.extend_from_slice(&angle(lon, east_or_west))?;
    label.extend_from_slice(&angle(lat, north_or_south))?;
    label.extend_from_slice(&four_digits(10 * lon_step(square, level)))?;
    label.extend_from_slice(&four_digits(10 * lat_step(level)))?;
    label.extend_from_slice(&[b' '; 19])?;
    label.extend_from_slice(&four_digits(columns(square, level)))?;
    label.extend_from_slice(&four_digits(rows(level)))?;
    label.extend_from_slice(&[b' '; 25])?;
    Ok(label)
}

/// The series designator.
fn series(level: CellLevel) -> [u8; 5]
    ensures { result ≡ series_of level }
{
    match level {
        CellLevel::Zero => *b"DTED0",
        CellLevel::One => *b"DTED1",
        CellLevel::Two => *b"DTED2",
    }
}

/// The data set identification.
#[tactic(auto, unfolding(crate::specs::Header::data_set))]
fn data_set(alloc: Global, level: CellLevel) -> Result<Vec<u8>, NoMemory>
    ensures { IfOk result (λ text. text.items ≡ data_set level) }
{
    let mut text = b"DSI".to_vec(alloc)?;
    text.extend_from_slice(&[b' '; 56])?;
    text.extend_from_slice(&series(level))?;
    text.extend_from_slice(&[b' '; 80])?;
    text.extend_from_slice(b"WGS84")?;
    text.extend_from_slice(&[b' '; 499])?;
    Ok(text)
}

/// The accuracy description.
#[tactic(auto, unfolding(crate::specs::Header::accuracy))]
fn accuracy(alloc: Global) -> Result<Vec<u8>, NoMemory>
    ensures { IfOk result (λ text. text.items ≡ accuracy) }
{
    let mut text = Vec::new(alloc);
    text.extend_from_slice(b"ACC")?;
    text.extend_from_slice(&[b' '; 2697])?;
    Ok(text)
}

/// The header.
#[tactic(auto, unfolding(crate::specs::Header::header_text), using(std::proofs::Common::append_assoc))]
pub(crate) fn header(alloc: Global, square: Square, level: CellLevel) -> Result<Vec<u8>, NoMemory>
    ensures { IfOk result (λ text. text.items ≡ header_text square level) }
{
    let mut text = user_label(alloc, square, level)?;
    text.extend_from_slice(&data_set(alloc, level)?)?;
    text.extend_from_slice(&accuracy(alloc)?)?;
    Ok(text)
}
