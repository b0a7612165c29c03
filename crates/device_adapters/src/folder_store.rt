// A store in a real folder.
ghost use Rattle.std.specs.Prelude.{◌≡◌, None};

use crate::fault::{counted, is_absent};
use crate::listing::names_in;
use crate::reading::{find, read};
use std::io::{self, ErrorKind};
use std::rt::Files;
use std::{fs, str};
use terrain_base::{DeviceFault, Fetched, Name, ReadBy, Reading, Store};

// The most bytes of a file that are read; a longer one is a fault.
const FILE_LIMIT: usize = 134_217_728;

/// The files of a real folder, by their names. It tells nothing of what it holds, and counts its faults. A put writes a
/// new file beside the name, `NAME.new`, and renames it, so a name has its old bytes or its new ones at every moment; a
/// half-written file that a stop leaves goes with the next put or delete of the name. Folders are made as names need
/// them, and stay. A folder that is not there holds nothing.
#[derive(Drop)]
pub struct FolderStore<'a, R> {
    rt: &'a R,
    folder: &'a str,
    faults: u64,
}

impl<'a, R: Files + AllocGlobal + Clone + Drop> FolderStore<'a, R> {
    /// A store over the folder that did not fail yet.
    pub fn new(rt: &'a R, folder: &'a str) -> FolderStore<'a, R>
        ensures { ⟦<FolderStore<'a, R> as Store>⟧.faults result ≡ 0 }
    {
        FolderStore {
            rt,
            folder,
            faults: 0,
        }
    }
}

// The path of a name's file.
fn path_of<R: AllocGlobal>(rt: &R, folder: &str, name: &Name) -> io::Result<String> {
    let Ok(text) = str::from_utf8(name.bytes()) else {
        return Err(io::Error::from(ErrorKind::InvalidFilename));
    };
    Ok(format!(in rt.alloc(); "{folder}/{text}")?)
}

// The bytes under a name, if it has a file.
fn get_file<R: Files + AllocGlobal>(
    rt: &R,
    folder: &str,
    name: &Name,
) -> io::Result<Option<Vec<u8>>> {
    let path = path_of(rt, folder, name)?;
    match read(rt, &path, FILE_LIMIT) {
        Ok(Fetched::Bytes(bytes)) => Ok(Some(bytes)),
        Ok(_) => Err(io::Error::from(ErrorKind::FileTooLarge)),
        Err(error) if is_absent(&error) => Ok(None),
        Err(error) => Err(error),
    }
}

// What a reading finds in the file of a name.
fn find_in_file<R: Files + AllocGlobal, G: Reading>(
    rt: &R,
    folder: &str,
    name: &Name,
    reading: &G,
) -> io::Result<Option<G::Found>> {
    let path = path_of(rt, folder, name)?;
    find(rt, &path, FILE_LIMIT, reading)
}

// Writes a file, and makes its folder where there is none.
fn write_new<R: Files + AllocGlobal>(rt: &R, path: &str, bytes: &[u8]) -> io::Result<()> {
    match fs::write(rt, path, bytes) {
        Err(error) if error.kind() == ErrorKind::NotFound => {
            if let Some((above, _)) = path.rsplit_once('/') {
                fs::create_dir_all(rt, above)?;
            }
            fs::write(rt, path, bytes)
        }
        written => written,
    }
}

// Puts the bytes under the name in one step.
fn put_file<R: Files + AllocGlobal>(
    rt: &R,
    folder: &str,
    name: &Name,
    bytes: &[u8],
) -> io::Result<()> {
    let path = path_of(rt, folder, name)?;
    let beside = format!(in rt.alloc(); "{path}.new")?;
    write_new(rt, &beside, bytes)?;
    fs::rename(rt, beside.as_str(), path.as_str())
}

// Removes a file, if it is there.
fn remove_if_held<R: Files>(rt: &R, path: &str) -> io::Result<()> {
    match fs::remove_file(rt, path) {
        Err(error) if is_absent(&error) => Ok(()),
        removed => removed,
    }
}

// Takes the name away, with what a stop may have left beside it.
fn delete_file<R: Files + AllocGlobal>(rt: &R, folder: &str, name: &Name) -> io::Result<()> {
    let path = path_of(rt, folder, name)?;
    let beside = format!(in rt.alloc(); "{path}.new")?;
    remove_if_held(rt, &beside)?;
    remove_if_held(rt, &path)
}

impl<'a, R: Files + AllocGlobal + Clone + Drop> Store for FolderStore<'a, R> {
    ghost holds = { λ _. None };

    ghost log = { λ _. None };

    ghost faults = { λ s. s.faults };

    fn get(&mut self, name: &Name) -> Result<Option<Vec<u8>>, DeviceFault> {
        match get_file(self.rt, self.folder, name) {
            Ok(found) => Ok(found),
            Err(error) => Err(counted(&mut self.faults, &error)),
        }
    }

    fn put(&mut self, name: &Name, bytes: &[u8]) -> Result<(), DeviceFault> {
        match put_file(self.rt, self.folder, name, bytes) {
            Ok(()) => Ok(()),
            Err(error) => Err(counted(&mut self.faults, &error)),
        }
    }

    fn delete(&mut self, name: &Name) -> Result<(), DeviceFault> {
        match delete_file(self.rt, self.folder, name) {
            Ok(()) => Ok(()),
            Err(error) => Err(counted(&mut self.faults, &error)),
        }
    }

    fn names(&mut self) -> Result<Vec<Name>, DeviceFault> {
        match names_in(self.rt, self.folder) {
            Ok(names) => Ok(names),
            Err(error) => Err(counted(&mut self.faults, &error)),
        }
    }

    // The file is read whole only where the reading finds nothing, and so all that goes wrong is seen then.
    fn get_by<G: Reading>(
        &mut self,
        name: &Name,
        reading: &G,
    ) -> Result<Option<ReadBy<G::Found, Vec<u8>>>, DeviceFault> {
        if let Ok(Some(found)) = find_in_file(self.rt, self.folder, name, reading) {
            return Ok(Some(ReadBy::Found(found)));
        }
        match self.get(name)? {
            Some(bytes) => Ok(Some(ReadBy::Whole(bytes))),
            None => Ok(None),
        }
    }
}
