// The text of a square of one degree, and its reader.
ghost use Rattle.std.specs.Prelude.{◌≡◌, ◌≢◌, ◌-◌, Some, IfSome, IfNone};
ghost use Rattle.terrain_base.specs.declared.square.Square as square;
ghost use Rattle.terrain_base.specs.SquareText.{square_text, digit_of};

use crate::Square;

// The last decimal digit, in ASCII.
pub(crate) fn digit(n: u16) -> u8
    ensures { result ≡ digit_of n }
{
    b'0' + (n % 10) as u8
}

// What a decimal digit counts; no matter what, for another byte.
fn digit_value(byte: u8) -> u16
    ensures { result ≡ byte - 48 }
{
    u16::from(byte.saturating_sub(b'0'))
}

// The square whose text the bytes are. Where they are the text of none, maybe a square all the same.
fn guess(bytes: &[u8]) -> Option<Square>
    ensures { (wanted : square.Square) → bytes.now ≡ square_text wanted → result ≡ Some wanted }
{
    let [side, tens, units, half, hundreds, lon_tens, lon_units] = *bytes else {
        return None;
    };
    let north = 10 * digit_value(tens) + digit_value(units);
    let east = 100 * digit_value(hundreds) + 10 * digit_value(lon_tens) + digit_value(lon_units);
    let lat = if side == b'n' {
        90 + north
    } else {
        90_u16.saturating_sub(north)
    };
    let lon = if half == b'e' {
        180 + east
    } else {
        180_u16.saturating_sub(east)
    };
    Square::of(lon, lat)
}

impl Square {
    /// The square's text, such as `n47e008` or `s01w180`.
    pub fn text(&self) -> [u8; 7]
        ensures { result ≡ square_text self.now }
    {
        let (side, north) = if self.lat >= 90 {
            (b'n', self.lat - 90)
        } else {
            (b's', 90 - self.lat)
        };
        let (half, east) = if self.lon >= 180 {
            (b'e', self.lon - 180)
        } else {
            (b'w', 180 - self.lon)
        };
        [
            side,
            digit(north / 10),
            digit(north),
            half,
            digit(east / 100),
            digit(east / 10),
            digit(east),
        ]
    }

    /// The square that has this text. `None` exactly where the bytes are the text of no square.
    pub fn read(bytes: &[u8]) -> Option<Square>
        ensures some { IfSome result (λ square. bytes.now ≡ square_text square) }
        ensures none { IfNone result ((square : square.Square) → bytes.now ≢ square_text square) }
    {
        let square = guess(bytes)?;
        if square.text().as_slice() == bytes {
            Some(square)
        } else {
            None
        }
    }
}
