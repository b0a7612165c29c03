// Numbers, tiles and keys among words: in decimal, without leading zeros, plus signs or a minus before a zero.
ghost use Rattle.std.specs.Prelude.{◌≡◌, ℕ, ℤ, ◌<◌, ◌^◌, decimal, IfSome, Some};
ghost use Rattle.std.specs.Fmt.{signed_decimal};
ghost use Rattle.terrain_base.specs.declared.cell_key.CellKey as key;
ghost use Rattle.terrain_base.specs.declared.params.Params as made;
ghost use Rattle.terrain_base.specs.declared.tile.TileId as id;
ghost use Rattle.terrain_base.specs.Height.{IsHeight};
ghost use Rattle.terrain_base.specs.Level.{level_number as number_of};
ghost use Rattle.terrain_base.specs.declared.level.CellLevel as level;
ghost use Rattle.top_words.specs.Arguments.{IsKeyText, IsParamsText, IsTileText, IsTrialText};

use itoa::Buffer;
use terrain_base::{CellKey, CellLevel, Params, Square, TileId};

// The number whose text the word is. Where it is the text of none, maybe a number all the same.
fn guess_number(word: &str) -> Option<u64>
    ensures { (wanted : ℕ) → wanted < 2 ^ 64 → word.now ≡ decimal wanted → result ≡ Some wanted }
{
    word.parse().ok()
}

// The same for a height in metres.
fn guess_height(word: &str) -> Option<i16>
    ensures { (wanted : ℤ) → IsHeight wanted → word.now ≡ signed_decimal wanted → result ≡ Some wanted }
{
    word.parse().ok()
}

// The number, below 2^64, whose text the word is. `None` exactly where it is the text of none.
pub(crate) fn read_number(word: &str) -> Option<u64>
    ensures right { IfSome result (λ number. word.now ≡ decimal number) }
    ensures all { (wanted : ℕ) → wanted < 2 ^ 64 → word.now ≡ decimal wanted → result ≡ Some wanted }
{
    let number = guess_number(word)?;
    let mut buffer = Buffer::new();
    if buffer.format(number) == word {
        Some(number)
    } else {
        None
    }
}

// The height in metres, -16000 to 16000, whose text the word is.
pub(crate) fn read_height(word: &str) -> Option<i16>
    ensures right { IfSome result (λ metres. word.now ≡ signed_decimal metres) }
    ensures all { (wanted : ℤ) → IsHeight wanted → word.now ≡ signed_decimal wanted → result ≡ Some wanted }
{
    let metres = guess_height(word)?;
    let mut buffer = Buffer::new();
    if buffer.format(metres) == word {
        Some(metres)
    } else {
        None
    }
}

// The level whose number the word is.
fn read_level(word: &str) -> Option<CellLevel>
    ensures right { IfSome result (λ level. word.now ≡ decimal (number_of level)) }
    ensures all { (wanted : level.CellLevel) → word.now ≡ decimal (number_of wanted) → result ≡ Some wanted }
{
    match read_number(word)? {
        0 => Some(CellLevel::Zero),
        1 => Some(CellLevel::One),
        2 => Some(CellLevel::Two),
        _ => None,
    }
}

// The key of a square's text and a level's number.
pub(crate) fn read_key(square: &str, level: &str) -> Option<CellKey>
    ensures right { IfSome result (λ key. IsKeyText square.now level.now key) }
    ensures all { (wanted : key.CellKey) → IsKeyText square.now level.now wanted → result ≡ Some wanted }
{
    let square = Square::read(square.as_bytes())?;
    let level = read_level(level)?;
    Some(CellKey { square, level })
}

// The params of these numbers.
fn params_of(cap: u64, fill: i16) -> Option<Params>
    ensures right { IfSome result (λ params. (params.cap ≡ cap) × (params.fill ≡ fill)) }
    ensures all { (wanted : made.Params) → cap ≡ wanted.cap → fill ≡ wanted.fill → result ≡ Some wanted }
{
    if cap > 14 {
        return None;
    }
    Params::of(cap as u8, fill)
}

// The params of a cap and a fill.
pub(crate) fn read_params(cap: &str, fill: &str) -> Option<Params>
    ensures right { IfSome result (λ params. IsParamsText cap.now fill.now params) }
    ensures all { (wanted : made.Params) → IsParamsText cap.now fill.now wanted → result ≡ Some wanted }
{
    let cap = read_number(cap)?;
    let fill = read_height(fill)?;
    params_of(cap, fill)
}

// The tile of these numbers.
fn tile_of(z: u64, x: u64, y: u64) -> Option<TileId>
    ensures right { IfSome result (λ tile. (tile.z ≡ z) × (tile.x ≡ x) × (tile.y ≡ y)) }
    ensures all { (wanted : id.TileId) → z ≡ wanted.z → x ≡ wanted.x → y ≡ wanted.y → result ≡ Some wanted }
{
    if z > 14 {
        return None;
    }
    if x > 32767 {
        return None;
    }
    if y > 16383 {
        return None;
    }
    TileId::of(z as u8, x as u32, y as u32)
}

// The tile of a level, a column and a row.
pub(crate) fn read_tile(z: &str, x: &str, y: &str) -> Option<TileId>
    ensures right { IfSome result (λ tile. IsTileText z.now x.now y.now tile) }
    ensures all { (wanted : id.TileId) → IsTileText z.now x.now y.now wanted → result ≡ Some wanted }
{
    let z = read_number(z)?;
    let x = read_number(x)?;
    let y = read_number(y)?;
    tile_of(z, x, y)
}

// The count and the number of a trial.
pub(crate) fn read_trial(count: &str, number: &str) -> Option<(u8, u64)>
    ensures right { IfSome result (λ trial. IsTrialText count.now number.now trial.0 trial.1) }
    ensures all { (counted numbered : ℕ) → IsTrialText count.now number.now counted numbered
        → result ≡ Some (counted, numbered) }
{
    let count = read_number(count)?;
    let number = read_number(number)?;
    if count <= 64 {
        Some((count as u8, number))
    } else {
        None
    }
}
