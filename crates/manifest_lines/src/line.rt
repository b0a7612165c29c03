// The lines of a text, one after another.
ghost use Rattle.std.specs.Prelude.{◌≡◌, ◌≢◌, ℕ, ℤ, ◌≤◌, ◌<◌, List, ◌++◌, ◌∷◌, length, slice_index, codes, decimal};
ghost use Rattle.std.specs.Prelude.{IfSome, IfNone, IsSomeAnd};
ghost use Rattle.terrain_base.specs.Height.{IsHeight};
ghost use Rattle.manifest_lines.specs.Line.{IsLine};
ghost use Rattle.manifest_lines.specs.Manifest.{fill_line};

use crate::number::{is_height, read_height, read_number};

// Where the first line feed is.
fn line_feed(bytes: &[u8]) -> Option<usize>
    ensures found { IfSome result (λ end. (end < length bytes.now) × (slice_index bytes.now end ≡ 10)) }
    ensures first { IfSome result (λ end. (k : ℕ) → k < end → slice_index bytes.now k ≢ 10) }
    ensures none { IfNone result ((k : ℕ) → k < length bytes.now → slice_index bytes.now k ≢ 10) }
{
    bytes.iter().position(|byte| *byte == b'\n')
}

// The first line, and what follows its line feed.
pub(crate) fn split_line(bytes: &[u8]) -> Option<(&[u8], &[u8])>
    ensures some { IfSome result (λ parts. bytes.now ≡ parts.0.now ++ 10 ∷ parts.1.now) }
    ensures first { (line rest : List ℕ) → IsLine line → bytes.now ≡ line ++ 10 ∷ rest
        → IsSomeAnd result (λ parts. (parts.0.now ≡ line) × (parts.1.now ≡ rest)) }
{
    let end = line_feed(bytes)?;
    Some((&bytes[..end], &bytes[end + 1..]))
}

// A line of a word and a number of at most `most`, and what follows it.
pub(crate) fn take_number<'a>(bytes: &'a [u8], word: &[u8], most: u16) -> Option<(u16, &'a [u8])>
    requires { IsLine word.now }
    ensures some { IfSome result (λ taken. (taken.0 ≤ most)
        × (bytes.now ≡ (word.now ++ decimal taken.0) ++ 10 ∷ taken.1.now)) }
    ensures none { IfNone result ((number : ℕ) (rest : List ℕ) → number ≤ most
        → bytes.now ≢ (word.now ++ decimal number) ++ 10 ∷ rest) }
{
    let (line, rest) = split_line(bytes)?;
    let number = read_number(line.strip_prefix(word)?)?;
    if number <= most {
        Some((number, rest))
    } else {
        None
    }
}

// The line of the fill, and what follows it.
pub(crate) fn take_fill(bytes: &[u8]) -> Option<(i16, &[u8])>
    ensures some { IfSome result (λ taken. IsHeight taken.0 × (bytes.now ≡ fill_line taken.0 ++ 10 ∷ taken.1.now)) }
    ensures none { IfNone result ((fill : ℤ) (rest : List ℕ) → IsHeight fill
        → bytes.now ≢ fill_line fill ++ 10 ∷ rest) }
{
    let (line, rest) = split_line(bytes)?;
    let fill = read_height(line.strip_prefix(b"fill ")?)?;
    if is_height(fill) {
        Some((fill, rest))
    } else {
        None
    }
}
