// What is looked for in the bytes of a file.
ghost use Rattle.std.specs.Prelude.{List, ℕ, IfOk, IfSome};
ghost use Rattle.terrain_base.specs.Reading.{IsFoundIn};

use std::io::{self, Read};

/// What one pass over a file's bytes, from the first on, looks for. With it a store or a library need not hold a file
/// whole.
pub trait Reading {
    /// What is found.
    type Found: Drop;

    /// What a thing that was found says of the bytes.
    ghost tells: { Self → List ℕ → Self.Found → Type 0 };

    /// Looks for it in the bytes that a reader gives. `None` says nothing of them: then they are to be had whole.
    fn find<R: Read>(&self, reader: &mut R) -> io::Result<Option<Self::Found>>
        ensures found { IfOk result (λ found. IfSome found (λ it. IfSome (R.remaining reader.old)
            (λ bytes. tells self.now bytes it))) };
}

/// What a reading found in a file, or the whole of it where the reading says nothing.
#[derive(Drop)]
pub enum ReadBy<F, W> {
    /// What was found.
    Found(F),
    /// The whole.
    Whole(W),
}

// What the reading finds in bytes that are at hand.
pub(crate) fn find_in<G: Reading>(reading: &G, bytes: &[u8]) -> Option<G::Found>
    ensures { IfSome result (λ found. IsFoundIn (G.tells reading.now) found bytes.now) }
{
    let mut rest = bytes;
    match reading.find(&mut rest) {
        Ok(found) => found,
        Err(_) => None,
    }
}
