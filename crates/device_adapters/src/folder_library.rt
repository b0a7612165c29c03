// A library of real files.
ghost use Rattle.std.specs.Prelude.{◌≡◌, None};

use crate::fault::{counted, is_absent};
use crate::reading::{find, read};
use std::rt::Files;
use terrain_base::{DeviceFault, Fetched, Library, ReadBy, Reading};

/// Real files, by their paths. It tells nothing of what it holds, and counts its faults: a file that is there and can't
/// be read, such as a folder. A path that leads to nothing, or through a plain file, is of no file.
#[derive(Drop)]
pub struct FolderLibrary<'a, R> {
    rt: &'a R,
    faults: u64,
}

impl<'a, R: Files + AllocGlobal> FolderLibrary<'a, R> {
    /// A library over the runtime's files that did not fail yet.
    pub fn new(rt: &'a R) -> FolderLibrary<'a, R>
        ensures { ⟦<FolderLibrary<'a, R> as Library>⟧.faults result ≡ 0 }
    {
        FolderLibrary { rt, faults: 0 }
    }
}

impl<'a, R: Files + AllocGlobal> Library for FolderLibrary<'a, R> {
    ghost holds = { λ _. None };

    ghost faults = { λ s. s.faults };

    fn fetch(&mut self, name: &str, limit: usize) -> Result<Fetched, DeviceFault> {
        match read(self.rt, name, limit) {
            Ok(fetched) => Ok(fetched),
            Err(error) if is_absent(&error) => Ok(Fetched::Absent),
            Err(error) => Err(counted(&mut self.faults, &error)),
        }
    }

    // The file is read whole only where the reading finds nothing, and so all that goes wrong is seen then.
    fn fetch_by<G: Reading>(
        &mut self,
        name: &str,
        limit: usize,
        reading: &G,
    ) -> Result<ReadBy<G::Found, Fetched>, DeviceFault> {
        match find(self.rt, name, limit, reading) {
            Ok(Some(found)) => Ok(ReadBy::Found(found)),
            _ => Ok(ReadBy::Whole(self.fetch(name, limit)?)),
        }
    }
}
