//! What a store holds, in sum, and files that are put beside or in the place of a database's own.
use crate::playing::{Row, play};
use std::alloc::Global;
use std::process::Abort;
use std::test::Fail as Stopped;
use terrain_base::{Name, Store, SureLibrary};

// Databases to level 9 of no cells, and of one at n00e000 that is 0 or 7 metres high everywhere. These sums and all
// others are of the files that another program, made apart from this one, leaves after the same commands.
pub(crate) const EMPTY: u64 = 0xd5ea9244fb5996e1;

pub(crate) const FLAT_0: u64 = 0x7948dfeec6f615dd;

pub(crate) const FLAT_7: u64 = 0xdda31e0103e6c60d;

// The sum goes on over these bytes, by FNV-1a.
fn add_bytes(sum: u64, bytes: &[u8]) -> u64 {
    let mut now = sum;
    for byte in bytes {
        now = (now ^ u64::from(*byte)).wrapping_mul(0x100000001b3);
    }
    now
}

// The sum of each name with its bytes, in the order of names.
pub(crate) fn sum_of<S: Store>(store: &mut S) -> Result<u64, Stopped> {
    let mut sum: u64 = 0xcbf29ce484222325;
    for name in &store.names()? {
        let bytes = store.get(name)?.ok_or("a name that is not held")?;
        sum = add_bytes(add_bytes(sum, name.bytes()), &bytes);
    }
    Ok(sum)
}

// Puts the bytes under a name, or takes it away where there are none.
pub(crate) fn place<S: Store>(
    store: &mut S,
    name: &str,
    bytes: Option<&[u8]>,
) -> Result<(), Stopped> {
    let name = Name::read(name.as_bytes()).ok_or("no name of a database")?;
    match bytes {
        Some(bytes) => store.put(&name, bytes)?,
        None => store.delete(&name)?,
    }
    Ok(())
}

// A name, the bytes that come there, and a command behind that.
pub(crate) type Change<'a> = (&'a str, Option<&'a [u8]>, Row<'a>);

// Makes changes to a store behind the program's back, and runs a command after each.
pub(crate) fn play_changes<S: Store>(
    rt: &impl Abort,
    alloc: Global,
    store: &mut S,
    files: &mut SureLibrary,
    changes: &[Change<'_>],
) -> Result<(), Stopped> {
    for (name, bytes, row) in changes {
        place(store, name, *bytes)?;
        play(rt, alloc, store, files, &[*row])?;
    }
    Ok(())
}
