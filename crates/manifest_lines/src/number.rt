// Numbers, in decimal: no leading zero, no plus sign, no minus before a zero.
ghost use Rattle.std.specs.Prelude.{◌≡◌, ◌≢◌, ℕ, ℤ, ◌<◌, ◌^◌, decimal, Some, ◌↔◌, IfSome, IfNone, IsTrue};
ghost use Rattle.std.specs.Fmt.{signed_decimal};
ghost use Rattle.terrain_base.specs.Height.{IsHeight};

use itoa::Buffer;
use std::str;

// The number whose text the bytes are. Where they are the text of none, maybe a number all the same.
fn guess_number(text: &[u8]) -> Option<u16>
    ensures { (wanted : ℕ) → wanted < 2 ^ 16 → text.now ≡ decimal wanted → result ≡ Some wanted }
{
    str::from_utf8(text).ok()?.parse().ok()
}

// The same for a height, in metres.
fn guess_height(text: &[u8]) -> Option<i16>
    ensures { (wanted : ℤ) → IsHeight wanted → text.now ≡ signed_decimal wanted → result ≡ Some wanted }
{
    str::from_utf8(text).ok()?.parse().ok()
}

// Whether it is a height, from -16000 to 16000 metres.
pub(crate) fn is_height(metres: i16) -> bool
    ensures { IsTrue result ↔ IsHeight metres }
{
    -16000 <= metres && metres <= 16000
}

// The number whose text the bytes are, below 2^16.
pub(crate) fn read_number(text: &[u8]) -> Option<u16>
    ensures some { IfSome result (λ number. text.now ≡ decimal number) }
    ensures none { IfNone result ((number : ℕ) → number < 2 ^ 16 → text.now ≢ decimal number) }
{
    let number = guess_number(text)?;
    let mut buffer = Buffer::new();
    if buffer.format(number).as_bytes() == text {
        Some(number)
    } else {
        None
    }
}

// The height whose text the bytes are, in metres.
pub(crate) fn read_height(text: &[u8]) -> Option<i16>
    ensures some { IfSome result (λ height. text.now ≡ signed_decimal height) }
    ensures none { IfNone result ((height : ℤ) → IsHeight height → text.now ≢ signed_decimal height) }
{
    let height = guess_height(text)?;
    let mut buffer = Buffer::new();
    if buffer.format(height).as_bytes() == text {
        Some(height)
    } else {
        None
    }
}
