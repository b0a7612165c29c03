//! Databases in memory. The sums of what is held are of the files that another program, made apart from this one,
//! leaves after the same commands.
use super::*;
use database::EngineAnswer;
use dted_cell::CellBytes;
use dted_write::generate;
use std::alloc::Global;
use std::test::Fail as Failed;
use terrain_base::{CellKey, CellLevel, Name, Params, Square, Store, SureStore, TileId, Work};

// Databases to level 1 of no cells, and of one of the number 5 or 6.
pub(crate) const NONE: u64 = 0x53224d24381d6149;

pub(crate) const FIVE: u64 = 0x56d3fefe11daa841;

const SIX: u64 = 0x6635b3bf18dfbb6b;

// The sum goes on over these bytes, by FNV-1a.
fn add_bytes(sum: u64, bytes: &[u8]) -> u64 {
    let mut now = sum;
    for byte in bytes {
        now = (now ^ u64::from(*byte)).wrapping_mul(0x100000001b3);
    }
    now
}

// The sum of each name with its bytes, in the order of names.
pub(crate) fn sum_of<S: Store>(store: &mut S) -> Result<u64, Failed> {
    let mut sum: u64 = 0xcbf29ce484222325;
    for name in &store.names()? {
        let bytes = store.get(name)?.ok_or("a name that is not held")?;
        sum = add_bytes(add_bytes(sum, name.bytes()), &bytes);
    }
    Ok(sum)
}

// The key of level 0 at no degrees north and no degrees east.
pub(crate) fn key() -> Result<CellKey, Failed> {
    let square = Square::of(180, 90).ok_or("square")?;
    let level = CellLevel::Zero;
    Ok(CellKey { square, level })
}

// The cell of a number under this key.
pub(crate) fn cell(alloc: Global, number: u64) -> Result<CellBytes, Failed> {
    let key = key()?;
    let bytes = generate(alloc, number, key.square, key.level)?;
    let cell = CellBytes::check(bytes).map_err(|refused| refused.refusal)?;
    Ok(cell)
}

#[test]
fn a_database_has_the_files_of_its_cells(rt: HostRuntime) -> Result<(), Failed> {
    let alloc = rt.alloc();
    let params = Params::of(1, 0).ok_or("params")?;
    let mut store = SureStore::new(alloc);
    let mut work = Work::new();
    let mut opened = init(alloc, &mut store, params, &mut work)?;
    assert_eq!(rt; sum_of(&mut store)?, NONE);
    add(alloc, &mut store, &mut opened, &cell(alloc, 5)?, &mut work)?;
    assert_eq!(rt; sum_of(&mut store)?, FIVE);
    replace(alloc, &mut store, &mut opened, &cell(alloc, 6)?, &mut work)?;
    assert_eq!(rt; sum_of(&mut store)?, SIX);
    assert_eq!(rt; opened.summaries().len(), 1);
    remove(alloc, &mut store, &mut opened, key()?, &mut work)?;
    assert_eq!(rt; sum_of(&mut store)?, NONE);
    assert_eq!(rt; work.tiles(), 10);
    Ok(())
}

#[test]
fn a_rebuilding_makes_good_what_was_lost(rt: HostRuntime) -> Result<(), Failed> {
    let alloc = rt.alloc();
    let params = Params::of(1, 0).ok_or("params")?;
    let mut store = SureStore::new(alloc);
    let mut work = Work::new();
    let mut opened = init(alloc, &mut store, params, &mut work)?;
    add(alloc, &mut store, &mut opened, &cell(alloc, 5)?, &mut work)?;
    let tile = TileId::of(1, 3, 0).ok_or("tile")?;
    store.put(&Name::note(tile), b"extra")?;
    store.put(&Name::stage(), b"extra")?;
    store.delete(&Name::layer())?;
    rebuild(alloc, &mut store, &mut opened, &mut work)?;
    assert_eq!(rt; sum_of(&mut store)?, FIVE);
    assert!(rt; opened.live());
    Ok(())
}

#[test]
fn the_stored_files_of_a_tile_are_told(rt: HostRuntime) -> Result<(), Failed> {
    let alloc = rt.alloc();
    let params = Params::of(1, 0).ok_or("params")?;
    let mut store = SureStore::new(alloc);
    let mut work = Work::new();
    let opened = init(alloc, &mut store, params, &mut work)?;
    let tile = TileId::of(0, 1, 0).ok_or("tile")?;
    let files = stored_tile(&mut store, &opened, tile)?;
    assert_eq!(rt; files.terrain.len(), 254);
    assert_eq!(rt; files.note.len(), 60);
    let other = TileId::of(1, 2, 1).ok_or("tile")?;
    assert_eq!(rt;
        stored_tile(&mut store, &opened, other).err(),
        Some(EngineAnswer::NoTile { tile: other })
    );
    let name = Name::note(tile);
    store.delete(&name)?;
    assert_eq!(rt;
        stored_tile(&mut store, &opened, tile).err(),
        Some(EngineAnswer::TileLost { name })
    );
    Ok(())
}
