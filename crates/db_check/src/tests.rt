//! Databases in memory, and what is found where one file of them is another, is gone, or is one too many.
use super::*;
use database::{Difference, EngineAnswer};
use db_engine::{add, init, settle};
use dted_cell::CellBytes;
use dted_write::generate;
use std::alloc::Global;
use std::test::Fail as Failed;
use terrain_base::{
    CellKey, CellLevel, Fail, MemStore, Name, Params, Square, Store, SureStore, TileId, Work,
};

// The database of no cells to level 9. Its files are those of two tiles, the layer and the manifest.
fn empty_database<S: Store>(alloc: Global, store: &mut S) -> Result<(), Failed> {
    let params = Params::of(9, 0).ok_or("params")?;
    init(alloc, store, params, &mut Work::new())?;
    Ok(())
}

// What is answered once the store is settled.
fn answer_of<S: Store>(
    alloc: Global,
    store: &mut S,
    work: &mut Work,
) -> Result<CheckVerdict, EngineAnswer> {
    let opened = settle(alloc, store, work)?;
    check(alloc, store, &opened, work)
}

// The verdict once the store is settled, and how many tiles were made for it.
fn verdict_of<S: Store>(alloc: Global, store: &mut S) -> Result<(CheckVerdict, u64), Failed> {
    let mut work = Work::new();
    let verdict = answer_of(alloc, store, &mut work)?;
    Ok((verdict, work.tiles()))
}

// The tile of level 0 that lies west or east.
fn half(x: u32) -> Result<TileId, Failed> {
    let tile = TileId::of(0, x, 0).ok_or("tile")?;
    Ok(tile)
}

#[test]
fn an_empty_database_has_six_files(rt: HostRuntime) -> Result<(), Failed> {
    let alloc = rt.alloc();
    let mut store = SureStore::new(alloc);
    empty_database(alloc, &mut store)?;
    let (verdict, tiles) = verdict_of(alloc, &mut store)?;
    assert_eq!(rt; verdict, CheckVerdict::Good { files: 6 });
    assert_eq!(rt; tiles, 2);
    Ok(())
}

#[test]
fn a_missing_tile_is_found(rt: HostRuntime) -> Result<(), Failed> {
    let alloc = rt.alloc();
    let mut store = SureStore::new(alloc);
    empty_database(alloc, &mut store)?;
    let name = Name::terrain(half(1)?);
    store.delete(&name)?;
    let kind = Difference::Missing;
    let (verdict, _) = verdict_of(alloc, &mut store)?;
    assert_eq!(rt; verdict, CheckVerdict::Found { name, kind });
    Ok(())
}

#[test]
fn a_changed_byte_is_found(rt: HostRuntime) -> Result<(), Failed> {
    let alloc = rt.alloc();
    let mut store = SureStore::new(alloc);
    empty_database(alloc, &mut store)?;
    let name = Name::terrain(half(0)?);
    let mut bytes = store.get(&name)?.ok_or("terrain")?;
    let last = bytes.pop().ok_or("byte")?;
    bytes.push(last ^ 1)?;
    store.put(&name, &bytes)?;
    let kind = Difference::Differs;
    let (verdict, _) = verdict_of(alloc, &mut store)?;
    assert_eq!(rt; verdict, CheckVerdict::Found { name, kind });
    Ok(())
}

#[test]
fn the_least_of_three_names_is_found(rt: HostRuntime) -> Result<(), Failed> {
    let alloc = rt.alloc();
    let mut store = SureStore::new(alloc);
    empty_database(alloc, &mut store)?;
    let kind = Difference::Extra;
    let old = Name::old_cell(Square::of(180, 90).ok_or("square")?);
    let note = Name::note(TileId::of(9, 3, 4).ok_or("tile")?);
    for name in [old, note] {
        store.put(&name, b"extra")?;
        let (verdict, _) = verdict_of(alloc, &mut store)?;
        assert_eq!(rt; verdict, CheckVerdict::Found { name, kind });
    }
    let name = Name::note(half(1)?);
    store.delete(&name)?;
    let kind = Difference::Missing;
    let (verdict, _) = verdict_of(alloc, &mut store)?;
    assert_eq!(rt; verdict, CheckVerdict::Found { name, kind });
    Ok(())
}

// Of level 1 one tile touches the cell's inside. So three tiles have six files; then come cell, layer and manifest.
#[test]
fn a_database_of_a_cell_is_good(rt: HostRuntime) -> Result<(), Failed> {
    let alloc = rt.alloc();
    let square = Square::of(180, 90).ok_or("square")?;
    let level = CellLevel::Zero;
    let bytes = generate(alloc, 5, square, level)?;
    let cell = CellBytes::check(bytes).map_err(|refused| refused.refusal)?;
    let params = Params::of(1, 0).ok_or("params")?;
    let mut store = SureStore::new(alloc);
    let mut opened = init(alloc, &mut store, params, &mut Work::new())?;
    add(alloc, &mut store, &mut opened, &cell, &mut Work::new())?;
    let mut work = Work::new();
    let verdict = check(alloc, &mut store, &opened, &mut work)?;
    assert_eq!(rt; verdict, CheckVerdict::Good { files: 9 });
    assert_eq!(rt; work.tiles(), 3);
    store.put(&Name::old_cell(square), b"extra")?;
    let name = Name::old_cell(square);
    let kind = Difference::Extra;
    let verdict = check(alloc, &mut store, &opened, &mut work)?;
    assert_eq!(rt; verdict, CheckVerdict::Found { name, kind });
    Ok(())
}

#[test]
fn a_store_that_fails_gives_no_verdict(rt: HostRuntime) -> Result<(), Failed> {
    let alloc = rt.alloc();
    // Beginning makes 10 calls and settling 2. Then the names are asked for, manifest and layer, and the four files of
    // two tiles.
    for call in 12..19u64 {
        let applied = false;
        let mut store = MemStore::new(alloc, &[Fail { call, applied }])?;
        empty_database(alloc, &mut store)?;
        let verdict = answer_of(alloc, &mut store, &mut Work::new());
        assert_eq!(rt; verdict.err(), Some(EngineAnswer::StoreFault));
    }
    Ok(())
}
