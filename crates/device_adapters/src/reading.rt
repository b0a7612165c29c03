// Reads of real files.

use std::fs::{self, OpenFile};
use std::io::{self, Read};
use std::rt::Files;
use terrain_base::{Fetched, Reading};

// How many bytes a file is said to have. Of what tells none, such as a pipe, it is 0.
fn said_length<F: OpenFile>(file: &F) -> u64 {
    match file.metadata() {
        Ok(metadata) => metadata.len(),
        Err(_) => 0,
    }
}

// Reads a file, and no more of it than one byte past the limit. Room is made once for all of it, and for a byte more,
// with which its end is found.
pub(crate) fn read<R: Files + AllocGlobal>(
    rt: &R,
    path: &str,
    limit: usize,
) -> io::Result<Fetched> {
    let file = fs::open(rt, path)?;
    let most = (limit as u64).saturating_add(1);
    let room = said_length(&file).saturating_add(1).min(most);
    let mut bytes = Vec::with_capacity(rt.alloc(), room as usize)?;
    file.take(most).read_to_end(&mut bytes)?;
    Ok(if bytes.len() > limit {
        Fetched::TooLong
    } else {
        Fetched::Bytes(bytes)
    })
}

// What a reading finds in a file of at most so many bytes. A longer file is not looked at, nor is one that tells no
// length: of what comes through a pipe nothing would be left to be read whole.
pub(crate) fn find<R: Files + AllocGlobal, G: Reading>(
    rt: &R,
    path: &str,
    limit: usize,
    reading: &G,
) -> io::Result<Option<G::Found>> {
    let mut file = fs::open(rt, path)?;
    let length = said_length(&file);
    if length == 0 || length > limit as u64 {
        return Ok(None);
    }
    reading.find(&mut file)
}
