// The names of HGT files.
ghost use Rattle.std.specs.Prelude.{◌≡◌, ◌+◌, ◌≤◌, length, ◌==◌};
ghost use Rattle.hgt_cells.specs.Name.{
  last_part,
  is_letter,
  digit_at,
  spells_latitude,
  spells_longitude,
  has_suffix,
  is_on_earth,
  spells_corner,
  degrees_of_latitude,
  degrees_of_longitude,
  latitude_of,
  longitude_of,
  square_at,
  square_named,
};

use terrain_base::Square;

// What follows the last '/', or all where there is none.
#[tactic(auto, unfolding(crate::specs::Name::last_part))]
fn last_part(name: &[u8]) -> &[u8]
    ensures { result.now ≡ last_part name.now }
{
    match name.iter().rposition(|byte| *byte == b'/') {
        Some(at) => &name[at + 1..],
        None => name,
    }
}

// Whether the byte at a place is a letter, in either case.
fn is_letter(part: &[u8], at: usize, letter: u8) -> bool
    requires { at + 1 ≤ length part.now }
    ensures { result ≡ is_letter part.now at letter }
{
    part[at].to_ascii_uppercase() == letter
}

// The number of the decimal digit at a place; no matter what, for another byte.
fn digit(part: &[u8], at: usize) -> u16
    requires { at + 1 ≤ length part.now }
    ensures { result ≡ digit_at part.now at }
{
    u16::from(part[at].saturating_sub(b'0'))
}

// Whether the part spells a latitude.
fn spells_latitude(part: &[u8]) -> bool
    requires { length part.now ≡ 11 }
    ensures { result ≡ spells_latitude part.now }
{
    (is_letter(part, 0, b'N') || is_letter(part, 0, b'S'))
        && part[1].is_ascii_digit()
        && part[2].is_ascii_digit()
}

// Whether the part spells a longitude.
fn spells_longitude(part: &[u8]) -> bool
    requires { length part.now ≡ 11 }
    ensures { result ≡ spells_longitude part.now }
{
    (is_letter(part, 3, b'E') || is_letter(part, 3, b'W'))
        && part[4].is_ascii_digit()
        && part[5].is_ascii_digit()
        && part[6].is_ascii_digit()
}

// The degrees from the equator.
fn degrees_of_latitude(part: &[u8]) -> u16
    requires { length part.now ≡ 11 }
    ensures value { result ≡ degrees_of_latitude part.now }
    ensures small { result ≤ 3000 }
{
    10 * digit(part, 1) + digit(part, 2)
}

// The degrees from Greenwich.
fn degrees_of_longitude(part: &[u8]) -> u16
    requires { length part.now ≡ 11 }
    ensures value { result ≡ degrees_of_longitude part.now }
    ensures small { result ≤ 30000 }
{
    100 * digit(part, 4) + 10 * digit(part, 5) + digit(part, 6)
}

// Whether the part ends with `.hgt`, in either case.
fn has_suffix(part: &[u8]) -> bool
    requires { length part.now ≡ 11 }
    ensures { result ≡ has_suffix part.now }
{
    part[7..].eq_ignore_ascii_case(b".hgt")
}

// Whether the degrees are those of a place on earth.
fn is_on_earth(part: &[u8]) -> bool
    requires { length part.now ≡ 11 }
    ensures { result ≡ is_on_earth part.now }
{
    degrees_of_latitude(part) <= 90 && degrees_of_longitude(part) <= 180
}

// Whether the part is the name of a corner.
#[tactic(auto, unfolding(crate::specs::Name::spells_corner))]
fn spells_corner(part: &[u8]) -> bool
    ensures { result ≡ spells_corner part.now }
{
    if part.len() != 11 {
        return false;
    }
    spells_latitude(part) && spells_longitude(part) && has_suffix(part) && is_on_earth(part)
}

// The degrees north of the south pole.
fn latitude(part: &[u8]) -> u16
    requires long { length part.now ≡ 11 }
    requires within { degrees_of_latitude part.now ≤ 90 }
    ensures value { result ≡ latitude_of part.now }
    ensures most { result ≤ 180 }
{
    let degrees = degrees_of_latitude(part);
    if is_letter(part, 0, b'N') {
        90 + degrees
    } else {
        90 - degrees
    }
}

// The degrees east of 180 degrees west.
fn longitude(part: &[u8]) -> u16
    requires long { length part.now ≡ 11 }
    requires within { degrees_of_longitude part.now ≤ 180 }
    ensures value { result ≡ longitude_of part.now }
    ensures most { result ≤ 360 }
{
    let degrees = degrees_of_longitude(part);
    if is_letter(part, 3, b'E') {
        180 + degrees
    } else {
        180 - degrees
    }
}

// The square of a corner.
fn square_at(part: &[u8]) -> Option<Square>
    requires long { length part.now ≡ 11 }
    requires lat { degrees_of_latitude part.now ≤ 90 }
    requires lon { degrees_of_longitude part.now ≤ 180 }
    ensures { result ≡ square_at part.now }
{
    let lat = latitude(part);
    let lon = longitude(part);
    Square::of(lon % 360, lat)
}

/// The square that the name of an HGT file says: N or S, two digits, E or W, three digits and `.hgt` behind the last
/// `/`, letters of either case. 180 E is 180 W, and 0 W and 0 S are 0 E and 0 N. `None` exactly where the form is
/// another, the longitude is above 180, or the latitude is outside -90 to 89.
#[tactic(auto, unfolding(crate::specs::Name::square_named))]
pub fn hgt_square(name: &str) -> Option<Square>
    ensures { result ≡ square_named name.now }
{
    let part = last_part(name.as_bytes());
    if spells_corner(part) {
        square_at(part)
    } else {
        None
    }
}
