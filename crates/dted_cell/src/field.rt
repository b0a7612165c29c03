// Numbers and words in a cell's labels and records.
ghost use Rattle.std.specs.Prelude.{◌≡◌, ◌+◌, ◌<◌, ◌≤◌, length, IfSome, Some, None, if◌then◌else◌};
ghost use Rattle.dted_cell.specs.Field.{number_of, spells, word_at, long_at, is_blank, are_digits, decimal_value};
ghost use Rattle.std.specs.List.{prefix_len};

use byteorder::{BigEndian, ByteOrder};

// The number of the two bytes at a place, the highest first.
pub(crate) fn word(bytes: &[u8], at: usize) -> u16
    requires { at + 2 ≤ length bytes.now }
    ensures { result ≡ word_at bytes.now at }
{
    BigEndian::read_u16(&bytes[at..])
}

// The number of the four bytes at a place, the highest first.
pub(crate) fn long(bytes: &[u8], at: usize) -> u32
    requires { at + 4 ≤ length bytes.now }
    ensures { result ≡ long_at bytes.now at }
{
    BigEndian::read_u32(&bytes[at..])
}

// Whether the bytes from a place on spell a word.
#[tactic(auto, unfolding(crate::specs::Field::spells))]
pub(crate) fn has_word(text: &[u8], at: usize, word: &[u8]) -> bool
    requires { at ≤ length text.now }
    ensures { result ≡ spells text.now at word.now }
{
    text[at..].starts_with(word)
}

// How many blanks a field begins with.
fn blanks(field: &[u8]) -> usize
    ensures exact { result ≡ prefix_len is_blank field.now }
    ensures within { result ≤ length field.now }
{
    field.iter().take_while(|byte| **byte == b' ').count()
}

// The number in a field: decimal digits, at least one, after any number of blanks.
#[tactic(auto, unfolding(crate::specs::Field::number_of))]
pub(crate) fn number(field: &[u8]) -> Option<u16>
    requires { length field.now ≤ 4 }
    ensures exact { result ≡ number_of field.now }
    ensures small { IfSome result (λ n. n < 10000) }
{
    digits(&field[blanks(field)..])
}

// The number that decimal digits spell, where there is at least one and nothing else.
fn digits(field: &[u8]) -> Option<u16>
    requires { length field.now ≤ 4 }
    ensures exact { result ≡ (if are_digits field.now then Some (decimal_value field.now) else None) }
    ensures small { IfSome result (λ n. n < 10000) }
{
    if field.is_empty() {
        return None;
    }
    let mut number: u16 = 0;
    for byte in field {
        if !byte.is_ascii_digit() {
            return None;
        }
        number = 10 * number + u16::from(*byte - b'0');
    }
    Some(number)
}
