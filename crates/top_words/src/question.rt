// Questions about the surface of a stored tile, among words.
ghost use Rattle.std.specs.Prelude.{◌≡◌, ◌≢◌, ℤ, ◌≤◌, unsigned_abs, IsTrue, IfSome, Some};
ghost use Rattle.std.specs.Fmt.{signed_decimal};
ghost use Rattle.mesh_query.specs.declared.spot.Spot as spots;
ghost use Rattle.mesh_query.specs.Way.{place};
ghost use Rattle.sight_line.specs.declared.eye.Eye as eyes;
ghost use Rattle.top_words.specs.declared.question.LevelPlace as places;
ghost use Rattle.top_words.specs.Arguments.{IsPlaceText, IsSpotText, IsEyeText};

use crate::number::read_number;
use itoa::Buffer;
use mesh_query::Spot;
use sight_line::Eye;

/// A level, and a place in whole arc-seconds east of 180 degrees west and north of the south pole.
#[derive(Clone, Copy, Debug, PartialEq, Eq)]
pub(crate) struct LevelPlace {
    pub(crate) level: u8,
    pub(crate) east: u32,
    pub(crate) north: u32,
}

// The place of a level's, an east's and a north's text.
pub(crate) fn read_place(level: &str, east: &str, north: &str) -> Option<LevelPlace>
    ensures right { IfSome result (λ place.
        IsPlaceText level.now east.now north.now place.level place.east place.north) }
    ensures all { (wanted : places.LevelPlace)
        → IsPlaceText level.now east.now north.now wanted.level wanted.east wanted.north
        → result ≡ Some wanted }
{
    let level = read_number(level)?;
    let east = read_number(east)?;
    let north = read_number(north)?;
    if level > 14 || east > 1295999 || north > 648000 {
        return None;
    }
    Some(LevelPlace {
        level: level as u8,
        east: east as u32,
        north: north as u32,
    })
}

// The spot of a u's and a v's text.
pub(crate) fn read_spot(u: &str, v: &str) -> Option<Spot>
    ensures right { IfSome result (IsSpotText u.now v.now) }
    ensures all { (wanted : spots.Spot) → IsSpotText u.now v.now wanted → result ≡ Some wanted }
{
    let u = read_number(u)?;
    let v = read_number(v)?;
    if u > 32767 || v > 32767 {
        return None;
    }
    Some(Spot {
        u: u as u16,
        v: v as u16,
    })
}

// Whether the spots differ.
pub(crate) fn is_apart(a: Spot, b: Spot) -> bool
    ensures yes { IsTrue result → place a ≢ place b }
    ensures no { place a ≢ place b → IsTrue result }
{
    a.u != b.u || a.v != b.v
}

// The metres whose text the word is. Where it is the text of none, maybe metres all the same.
fn guess_metres(word: &str) -> Option<i32>
    ensures { (wanted : ℤ) → unsigned_abs wanted ≤ 65535 → word.now ≡ signed_decimal wanted → result ≡ Some wanted }
{
    word.parse().ok()
}

// The metres, -65535 to 65535, whose text the word is.
fn read_metres(word: &str) -> Option<i32>
    ensures right { IfSome result (λ metres. (word.now ≡ signed_decimal metres) × (unsigned_abs metres ≤ 65535)) }
    ensures all { (wanted : ℤ) → unsigned_abs wanted ≤ 65535 → word.now ≡ signed_decimal wanted → result ≡ Some wanted }
{
    let metres = guess_metres(word)?;
    if metres.unsigned_abs() > 65535 {
        return None;
    }
    let mut buffer = Buffer::new();
    if buffer.format(metres) == word {
        Some(metres)
    } else {
        None
    }
}

// The eye of a spot's and a height's text.
pub(crate) fn read_eye(u: &str, v: &str, metres: &str) -> Option<Eye>
    ensures right { IfSome result (IsEyeText u.now v.now metres.now) }
    ensures all { (wanted : eyes.Eye) → IsEyeText u.now v.now metres.now wanted → result ≡ Some wanted }
{
    let spot = read_spot(u, v)?;
    let metres = read_metres(metres)?;
    Some(Eye { spot, metres })
}
