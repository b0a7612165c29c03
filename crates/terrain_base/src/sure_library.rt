// A library in memory that never fails.
ghost use Rattle.std.specs.Prelude.{◌≡◌, Some, OnOk, OnErr, option_map};
ghost use Rattle.std.specs.FinMap as map;
ghost use Rattle.terrain_base.specs.Book.{files_of};

use crate::{DeviceFault, Fetched, Library, NoMemory};
use std::alloc::Global;
use std::collections::VecDeque;

// A file with its name.
#[derive(Drop)]
pub(crate) struct Book {
    pub(crate) name: Vec<u8>,
    pub(crate) bytes: Vec<u8>,
}

/// A library in memory. It tells what it holds, and its count of faults is always 0.
#[derive(Drop)]
pub struct SureLibrary {
    alloc: Global,
    // The newest first: of a name that was held twice the first counts.
    books: VecDeque<Book>,
}

impl SureLibrary {
    /// A library that holds nothing.
    pub fn new(alloc: Global) -> SureLibrary
        ensures { ⟦<SureLibrary as Library>⟧.holds result ≡ Some map.empty }
    {
        SureLibrary {
            alloc,
            books: VecDeque::new(alloc),
        }
    }

    /// Holds the bytes under the name, in place of what it held there. Want of memory changes
    /// nothing.
    pub fn hold(&mut self, name: &str, bytes: &[u8]) -> Result<(), NoMemory>
        ensures ok { OnOk result (⟦<SureLibrary as Library>⟧.holds self.new
            ≡ option_map (λ files. map.insert files name.now bytes.now) (⟦<SureLibrary as Library>⟧.holds self.old)) }
        ensures err { OnErr result (⟦<SureLibrary as Library>⟧.holds self.new
            ≡ ⟦<SureLibrary as Library>⟧.holds self.old) }
    {
        let book = Book {
            name: name.as_bytes().to_vec(self.alloc)?,
            bytes: bytes.to_vec(self.alloc)?,
        };
        self.books.push_front(book)?;
        Ok(())
    }
}

impl Library for SureLibrary {
    ghost holds = { λ s. Some (files_of s.books.items) };

    ghost faults = { λ _. 0 };

    fn fetch(&mut self, name: &str, limit: usize) -> Result<Fetched, DeviceFault> {
        for book in &self.books {
            if name.as_bytes().cmp(book.name.as_slice()).is_eq() {
                if book.bytes.len() > limit {
                    return Ok(Fetched::TooLong);
                }
                return Ok(Fetched::Bytes(book.bytes.to_vec(self.alloc)?));
            }
        }
        Ok(Fetched::Absent)
    }
}
