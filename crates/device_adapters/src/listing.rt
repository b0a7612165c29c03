// Which files of a database a folder holds.

use crate::fault::is_absent;
use std::alloc::Global;
use std::fs::{self, DirEntry};
use std::io::{self, ErrorKind};
use std::rt::Files;
use terrain_base::Name;

// What was found so far: names of a database, and the folders of the next depth, by their paths inside the database's
// folder, each with a slash behind it.
#[derive(Drop)]
pub(crate) struct Found {
    pub(crate) names: Vec<Name>,
    pub(crate) below: Vec<String>,
}

// Notes what an entry of a folder is: a folder, or a plain file whose path is a name. All else is not seen.
fn note<R: Files>(
    alloc: Global,
    inside: &str,
    entry: &DirEntry<R>,
    found: &mut Found,
) -> io::Result<()> {
    let file_name = entry.file_name();
    let path = format!(in alloc; "{inside}{file_name}")?;
    let kind = entry.file_type()?;
    if kind.is_dir() {
        let folder = format!(in alloc; "{path}/")?;
        found.below.push(folder)?;
        return Ok(());
    }
    if let Some(name) = Name::read(path.as_bytes()) {
        if kind.is_file() {
            found.names.push(name)?;
        }
    }
    Ok(())
}

// Notes what a folder has. A folder that is not there has nothing, and an entry whose name is no text is not seen.
fn scan<R: Files + AllocGlobal + Clone + Drop>(
    rt: &R,
    folder: &str,
    inside: &str,
    found: &mut Found,
) -> io::Result<()> {
    let alloc = rt.alloc();
    let path = format!(in alloc; "{folder}/{inside}")?;
    let entries = match fs::read_dir(rt, path.as_str()) {
        Ok(entries) => entries,
        Err(error) if is_absent(&error) => return Ok(()),
        Err(error) => return Err(error),
    };
    for entry in entries {
        match entry {
            Ok(entry) => note(alloc, inside, &entry, found)?,
            Err(error) if error.kind() == ErrorKind::InvalidFilename => {}
            Err(error) => return Err(error),
        }
    }
    Ok(())
}

// Notes what the folders of one depth have.
fn scan_all<R: Files + AllocGlobal + Clone + Drop>(
    rt: &R,
    folder: &str,
    insides: &[String],
    found: &mut Found,
) -> io::Result<()> {
    for inside in insides {
        scan(rt, folder, inside, found)?;
    }
    Ok(())
}

// The names that a database's folder holds, in the order of their bytes. No name is deeper than two folders.
pub(crate) fn names_in<R: Files + AllocGlobal + Clone + Drop>(
    rt: &R,
    folder: &str,
) -> io::Result<Vec<Name>> {
    let alloc = rt.alloc();
    let mut found = Found {
        names: Vec::new(alloc),
        below: Vec::new(alloc),
    };
    scan(rt, folder, "", &mut found)?;
    for _ in 0..2 {
        let insides = std::mem::replace(&mut found.below, Vec::new(alloc));
        scan_all(rt, folder, &insides, &mut found)?;
    }
    found.names.sort()?;
    Ok(found.names)
}
