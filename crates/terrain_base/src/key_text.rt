// The text of a key in a row, and its reader.
ghost use Rattle.std.specs.Prelude.{◌≡◌, ◌≢◌, Some, IfSome, IfNone};
ghost use Rattle.terrain_base.specs.declared.cell_key.CellKey as key;
ghost use Rattle.terrain_base.specs.declared.level.CellLevel as level;
ghost use Rattle.terrain_base.specs.Level.{level_number as number_of};
ghost use Rattle.terrain_base.specs.Name.{row_text};
ghost use Rattle.terrain_base.specs.SquareText.{digit_of};

use crate::{CellKey, CellLevel, Square};

// The digit of a level.
fn digit(level: CellLevel) -> u8
    ensures { result ≡ digit_of (number_of level) }
{
    match level {
        CellLevel::Zero => b'0',
        CellLevel::One => b'1',
        CellLevel::Two => b'2',
    }
}

// The level of a digit; no matter which, for another byte.
fn level_of(digit: u8) -> CellLevel
    ensures { (wanted : level.CellLevel) → digit ≡ digit_of (number_of wanted) → result ≡ wanted }
{
    match digit {
        b'0' => CellLevel::Zero,
        b'1' => CellLevel::One,
        _ => CellLevel::Two,
    }
}

// The key whose text the bytes are. Where they are the text of none, maybe a key all the same.
fn guess(text: &[u8]) -> Option<CellKey>
    ensures { (wanted : key.CellKey) → text.now ≡ row_text wanted → result ≡ Some wanted }
{
    if text.len() != 9 {
        return None;
    }
    let square = Square::read(&text[..7])?;
    let level = level_of(text[8]);
    Some(CellKey { square, level })
}

impl CellKey {
    /// The key's text in a row, such as `n47e008 1`.
    pub fn text(&self) -> [u8; 9]
        ensures { result ≡ row_text self.now }
    {
        let [side, tens, units, half, hundreds, lon_tens, lon_units] = self.square.text();
        [
            side,
            tens,
            units,
            half,
            hundreds,
            lon_tens,
            lon_units,
            b' ',
            digit(self.level),
        ]
    }

    /// The key that has this text. `None` exactly where the bytes are the text of no key.
    pub fn read(text: &[u8]) -> Option<CellKey>
        ensures some { IfSome result (λ key. text.now ≡ row_text key) }
        ensures none { IfNone result ((key : key.CellKey) → text.now ≢ row_text key) }
    {
        let key = guess(text)?;
        if key.text().as_slice() == text {
            Some(key)
        } else {
            None
        }
    }
}
