//! Databases of versions 1 and 2 that are brought to version 3. The sums of what is held then are of the files that
//! another program, made apart from this one, leaves.
use super::*;
use database::EngineAnswer;
use dted_cell::CellTrouble;
use dted_write::{PostGrid, write_cell};
use std::alloc::Global;
use std::test::Fail as Failed;
use terrain_base::{CellKey, CellLevel, Name, Post, Square, Store, SureStore, Work};

// Databases to level 1 of one cell that is 0 or 7 metres high everywhere.
pub(crate) const FLAT_0: u64 = 0x8a7cdf4d2b25cb29;

pub(crate) const FLAT_7: u64 = 0xd4d87eef39ff48cf;

// Manifests of one cell, put or not.
pub(crate) const ONE_CLOSED: &[u8] =
    b"terrain-db 1\ncap 1\nfill 0\nstate closed\ncells 1\nn00e000\n";

pub(crate) const ONE_PUT: &[u8] =
    b"terrain-db 1\ncap 1\nfill 0\nstate put n00e000\ncells 1\nn00e000\n";

pub(crate) const TWO_CLOSED: &[u8] =
    b"terrain-db 2\ncap 1\nfill 0\nstate closed\ncells 1\nn00e000 0\n";

pub(crate) const TWO_PUT: &[u8] =
    b"terrain-db 2\ncap 1\nfill 0\nstate put n00e000 0\ncells 1\nn00e000 0\n";

// The sum goes on over these bytes, by FNV-1a.
fn add_bytes(sum: u64, bytes: &[u8]) -> u64 {
    let mut now = sum;
    for byte in bytes {
        now = (now ^ u64::from(*byte)).wrapping_mul(0x100000001b3);
    }
    now
}

// The sum of each name with its bytes, in the order of names.
pub(crate) fn sum_of<S: Store>(store: &mut S) -> Result<u64, Failed> {
    let mut sum: u64 = 0xcbf29ce484222325;
    for name in &store.names()? {
        let bytes = store.get(name)?.ok_or("a name that is not held")?;
        sum = add_bytes(add_bytes(sum, name.bytes()), &bytes);
    }
    Ok(sum)
}

// The key of a level at no degrees north and no degrees east.
fn key(level: CellLevel) -> Result<CellKey, Failed> {
    let square = Square::of(180, 90).ok_or("square")?;
    Ok(CellKey { square, level })
}

// The names of its cell in versions 1 and 2.
pub(crate) fn cell_name(of_version_1: bool) -> Result<Name, Failed> {
    let key = key(CellLevel::Zero)?;
    if of_version_1 {
        return Ok(Name::old_cell(key.square));
    }
    Ok(Name::cell(key))
}

// The cell of this key that is so many metres high everywhere.
fn flat(alloc: Global, key: CellKey, metres: u8) -> Result<Vec<u8>, Failed> {
    let post = Post::Metres(i16::from(metres));
    let posts = PostGrid::filled(alloc, key.square, key.level, post)?;
    Ok(write_cell(alloc, &posts)?)
}

// The same of level 0.
fn cell(alloc: Global, metres: u8) -> Result<Vec<u8>, Failed> {
    flat(alloc, key(CellLevel::Zero)?, metres)
}

// A database with this manifest, where the cell of 0 metres is held under its name and that of 7 is on the stage.
pub(crate) fn old_database(
    alloc: Global,
    manifest: &[u8],
    name: Name,
) -> Result<SureStore, Failed> {
    let mut store = SureStore::new(alloc);
    store.put(&Name::manifest(), manifest)?;
    store.put(&name, &cell(alloc, 0)?)?;
    store.put(&Name::stage(), &cell(alloc, 7)?)?;
    Ok(store)
}

// What is held, in sum, when such a database was brought to version 3.
fn sum_when_migrated(alloc: Global, manifest: &[u8], of_version_1: bool) -> Result<u64, Failed> {
    let mut store = old_database(alloc, manifest, cell_name(of_version_1)?)?;
    let opened = migrate(alloc, &mut store, &mut Work::new())?;
    if !opened.live() || opened.summaries().len() != 1 {
        return Ok(0);
    }
    sum_of(&mut store)
}

#[test]
fn old_databases_get_the_files_of_version_3(rt: HostRuntime) -> Result<(), Failed> {
    for (manifest, of_version_1, sum) in [
        (ONE_CLOSED, true, FLAT_0),
        (ONE_PUT, true, FLAT_7),
        (TWO_CLOSED, false, FLAT_0),
        (TWO_PUT, false, FLAT_7),
    ] {
        assert_eq!(rt; sum_when_migrated(rt.alloc(), manifest, of_version_1)?, sum);
    }
    Ok(())
}

#[test]
fn a_cell_of_version_1_gets_the_level_of_its_file(rt: HostRuntime) -> Result<(), Failed> {
    let alloc = rt.alloc();
    let key = key(CellLevel::One)?;
    let bytes = flat(alloc, key, 0)?;
    let mut store = SureStore::new(alloc);
    store.put(&Name::manifest(), ONE_CLOSED)?;
    store.put(&Name::old_cell(key.square), &bytes)?;
    migrate(alloc, &mut store, &mut Work::new())?;
    assert!(rt; store.get(&Name::cell(key))?.is_some());
    assert!(rt; store.get(&Name::old_cell(key.square))?.is_none());
    Ok(())
}

// What is answered where the cell is held under both its names, and nothing is on the stage.
fn answer_to(alloc: Global, manifest: &[u8]) -> Result<Option<EngineAnswer>, Failed> {
    let mut store = old_database(alloc, manifest, cell_name(true)?)?;
    store.put(&cell_name(false)?, &cell(alloc, 0)?)?;
    store.delete(&Name::stage())?;
    Ok(migrate(alloc, &mut store, &mut Work::new()).err())
}

// The answer that nothing is held under a name.
fn lost(name: Name) -> Option<EngineAnswer> {
    Some(EngineAnswer::Trouble(CellTrouble::Lost { name }))
}

#[test]
fn what_is_no_old_database_is_refused(rt: HostRuntime) -> Result<(), Failed> {
    let square = Square::of(181, 90).ok_or("square")?;
    let zero = CellLevel::Zero;
    for (manifest, answer) in [
        (
            "terrain-db 3\ncap 15\n",
            Some(EngineAnswer::NotOld { version: 3 }),
        ),
        (
            "terrain-db 2\ncap 15\n",
            Some(EngineAnswer::NotADatabase { line: 2 }),
        ),
        (
            "terrain-db 4\n",
            Some(EngineAnswer::NotADatabase { line: 1 }),
        ),
        (
            "terrain-db 1\ncap 1\nfill 0\nstate put n00e000\ncells 1\nn00e000\n",
            lost(Name::stage()),
        ),
        (
            "terrain-db 1\ncap 1\nfill 0\nstate closed\ncells 2\nn00e000\nn00e001\n",
            lost(Name::old_cell(square)),
        ),
        (
            "terrain-db 2\ncap 1\nfill 0\nstate closed\ncells 2\nn00e000 0\nn00e001 0\n",
            lost(Name::cell(CellKey {
                square,
                level: zero,
            })),
        ),
    ] {
        assert_eq!(rt;
            answer_to(rt.alloc(), manifest.as_bytes())?,
            answer,
            "{manifest}"
        );
    }
    Ok(())
}
