//! Databases whose calls stop, and what settling makes of them. The sums are of the files that another program, made
//! apart from this one, leaves.
use super::*;
use crate::tests::{FIVE, NONE, cell, key, sum_of};
use database::EngineAnswer;
use dted_cell::CellBytes;
use dted_write::{PostGrid, write_cell};
use std::alloc::Global;
use std::test::Fail as Failed;
use terrain_base::{Fail, MemStore, Name, Params, Post, Store, SureStore, TileId, Work};

// Databases to level 9 of no cells, and of one that is 0 or 7 metres high everywhere.
const EMPTY: u64 = 0xd5ea9244fb5996e1;

const FLAT_0: u64 = 0x7948dfeec6f615dd;

const FLAT_7: u64 = 0xdda31e0103e6c60d;

// The cell that is so many metres high everywhere.
fn flat(alloc: Global, metres: u8) -> Result<CellBytes, Failed> {
    let key = key()?;
    let post = Post::Metres(i16::from(metres));
    let posts = PostGrid::filled(alloc, key.square, key.level, post)?;
    let bytes = write_cell(alloc, &posts)?;
    let cell = CellBytes::check(bytes).map_err(|refused| refused.refusal)?;
    Ok(cell)
}

// The database of the cell of 0 metres.
fn flat_database(alloc: Global) -> Result<SureStore, Failed> {
    let params = Params::of(9, 0).ok_or("params")?;
    let mut store = SureStore::new(alloc);
    let mut work = Work::new();
    let mut opened = init(alloc, &mut store, params, &mut work)?;
    add(alloc, &mut store, &mut opened, &flat(alloc, 0)?, &mut work)?;
    Ok(store)
}

// A cell is added where a call on the store fails, and the store is settled. What is held then, in sum.
fn sum_after_a_stop(alloc: Global, fail: Fail) -> Result<u64, Failed> {
    let params = Params::of(1, 0).ok_or("params")?;
    let mut store = MemStore::new(alloc, &[fail])?;
    let mut work = Work::new();
    let mut opened = init(alloc, &mut store, params, &mut work)?;
    let stopped = add(alloc, &mut store, &mut opened, &cell(alloc, 5)?, &mut work);
    if stopped != Err(EngineAnswer::StoreFault) || opened.live() {
        return Ok(0);
    }
    settle(alloc, &mut store, &mut work)?;
    sum_of(&mut store)
}

#[test]
fn a_cell_that_was_marked_is_put_by_settling(rt: HostRuntime) -> Result<(), Failed> {
    for (call, applied, sum) in [
        (10, true, NONE),
        (11, false, NONE),
        (11, true, FIVE),
        (13, false, FIVE),
    ] {
        assert_eq!(rt; sum_after_a_stop(rt.alloc(), Fail { call, applied })?, sum);
    }
    Ok(())
}

// A store that holds what this one holds, put name by name, and that fails at a call.
fn copy_of(alloc: Global, held: &mut SureStore, fail: Fail) -> Result<MemStore, Failed> {
    let mut store = MemStore::new(alloc, &[fail])?;
    for name in &held.names()? {
        let bytes = held.get(name)?.ok_or("a name that is not held")?;
        store.put(name, &bytes)?;
    }
    Ok(store)
}

// The store is settled and its cell replaced. Whether the store stopped it.
fn is_stopped(alloc: Global, store: &mut MemStore, cell: &CellBytes) -> bool {
    let mut work = Work::new();
    let replaced = match settle(alloc, store, &mut work) {
        Ok(mut opened) => replace(alloc, store, &mut opened, cell, &mut work),
        Err(answer) => Err(answer),
    };
    replaced == Err(EngineAnswer::StoreFault)
}

// The cell of a copy is replaced where a call fails, and the copy is settled. What is held then, in sum.
fn sum_after_a_stopped_replace(
    alloc: Global,
    held: &mut SureStore,
    cell: &CellBytes,
    fail: Fail,
) -> Result<u64, Failed> {
    let mut store = copy_of(alloc, held, fail)?;
    if !is_stopped(alloc, &mut store, cell) {
        return Ok(0);
    }
    settle(alloc, &mut store, &mut Work::new())?;
    sum_of(&mut store)
}

// The first call at which a stop leaves other files than it should, if there is one. The calls on a copy begin with 47
// puts. Then come two gets and the delete of settling; the stage, the manifest with its mark, and the cell; a get; 110
// changes of tiles; layer, closed manifest and stage.
fn first_wrong_stop(alloc: Global, applied: bool) -> Result<Option<u64>, Failed> {
    let mut held = flat_database(alloc)?;
    let cell = flat(alloc, 7)?;
    for call in 47..167u64 {
        let fail = Fail { call, applied };
        let is_marked = call > 51 || call == 51 && applied;
        let wanted = if is_marked { FLAT_7 } else { FLAT_0 };
        if sum_after_a_stopped_replace(alloc, &mut held, &cell, fail)? != wanted {
            return Ok(Some(call));
        }
    }
    Ok(None)
}

#[test]
fn a_stop_at_any_call_of_a_replace_leaves_the_old_or_the_new_files(
    rt: HostRuntime,
) -> Result<(), Failed> {
    assert_eq!(rt; first_wrong_stop(rt.alloc(), false)?, None);
    Ok(())
}

#[test]
fn so_does_a_stop_at_any_call_that_takes_effect(rt: HostRuntime) -> Result<(), Failed> {
    assert_eq!(rt; first_wrong_stop(rt.alloc(), true)?, None);
    Ok(())
}

#[test]
fn a_replace_behind_settling_makes_117_changes(rt: HostRuntime) -> Result<(), Failed> {
    let alloc = rt.alloc();
    let mut held = flat_database(alloc)?;
    let (call, applied) = (167, false);
    let mut store = copy_of(alloc, &mut held, Fail { call, applied })?;
    assert!(rt; !is_stopped(alloc, &mut store, &flat(alloc, 7)?));
    assert_eq!(rt; store.log().len(), 47 + 117);
    Ok(())
}

#[test]
fn a_cell_that_was_being_dropped_is_dropped_by_settling(rt: HostRuntime) -> Result<(), Failed> {
    let alloc = rt.alloc();
    let mut store = flat_database(alloc)?;
    let manifest = b"terrain-db 3\ncap 9\nfill 0\nstate drop n00e000 0\ncells 0\n";
    store.put(&Name::manifest(), manifest)?;
    let opened = settle(alloc, &mut store, &mut Work::new())?;
    assert_eq!(rt; opened.summaries().len(), 0);
    assert_eq!(rt; sum_of(&mut store)?, EMPTY);
    Ok(())
}

#[test]
fn a_rebuilding_that_was_stopped_is_done_by_settling(rt: HostRuntime) -> Result<(), Failed> {
    let alloc = rt.alloc();
    let mut store = flat_database(alloc)?;
    let manifest = b"terrain-db 3\ncap 9\nfill 0\nstate rebuild\ncells 1\nn00e000 0\n";
    store.put(&Name::manifest(), manifest)?;
    store.put(&Name::note(TileId::of(9, 0, 0).ok_or("tile")?), b"extra")?;
    store.delete(&Name::terrain(TileId::of(9, 512, 256).ok_or("tile")?))?;
    store.delete(&Name::layer())?;
    settle(alloc, &mut store, &mut Work::new())?;
    assert_eq!(rt; sum_of(&mut store)?, FLAT_0);
    Ok(())
}
