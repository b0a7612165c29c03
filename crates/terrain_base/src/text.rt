// A short text in place, without memory.
ghost use Rattle.std.specs.Prelude.{◌≡◌, ◌≤◌, ◌<◌, ◌+◌, ◌++◌, [], ◌∷◌, length, decimal};

use itoa::Buffer;
use std::marker::Model;

// At most 24 bytes of text. The bytes behind it are zero, so equal texts are equal values.
#[derive(Debug)]
pub(crate) struct Text {
    bytes: [u8; 24],
    len: usize,
}

impl Model for Text {
    ghost use Rattle.std.specs.Prelude.{◌≡◌, ◌≤◌, List, ℕ, length, take};
    ghost use Rattle.terrain_base.specs.Text.{in_room};
    ghost use Rattle.std.proofs.Common.{sym};

    ghost Value = { List ℕ };

    ghost view = { λ a. take a.len a.bytes };

    ghost invariant = { λ a. (a.len ≤ 24) × (length (take a.len a.bytes) ≡ a.len)
        × (a.bytes ≡ in_room (take a.len a.bytes)) };

    ghost inverse = { λ text. record { bytes = in_room text; len = length text } };

    ghost inverse_ok = { λ a h. λ i. record { bytes = sym h.2 i; len = h.1 i } };
}

impl Clone for Text {
    fn clone(&self) -> Result<Text, std::alloc::AllocError> {
        Ok(*self)
    }
}

impl Copy for Text {}

impl Text {
    pub(crate) fn new() -> Text
        ensures { result ≡ [] }
    {
        Text {
            bytes: [0; 24],
            len: 0,
        }
    }

    pub(crate) fn as_bytes(&self) -> &[u8]
        ensures { result.now ≡ self.now }
    {
        &self.bytes[..self.len]
    }

    pub(crate) fn push(&mut self, byte: u8)
        requires { length self.old < 24 }
        ensures { self.new ≡ self.old ++ byte ∷ [] }
    {
        self.bytes[self.len] = byte;
        self.len += 1;
    }

    pub(crate) fn push_all(&mut self, bytes: &[u8])
        requires { length self.old + length bytes.now ≤ 24 }
        ensures { self.new ≡ self.old ++ bytes.now }
    {
        for byte in bytes {
            self.push(*byte);
        }
    }

    pub(crate) fn push_decimal(&mut self, n: u32)
        requires { length self.old + length (decimal n) ≤ 24 }
        ensures { self.new ≡ self.old ++ decimal n }
    {
        let mut buffer = Buffer::new();
        self.push_all(buffer.format(n).as_bytes());
    }
}
