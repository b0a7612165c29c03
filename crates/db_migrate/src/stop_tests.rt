//! Migrations that stop, and what is made of them then. The sums are of the files that another program, made apart from
//! this one, leaves.
use crate::migrate;
use crate::tests::{
    FLAT_0, FLAT_7, ONE_CLOSED, ONE_PUT, TWO_CLOSED, TWO_PUT, cell_name, old_database, sum_of,
};
use database::EngineAnswer;
use db_engine::settle;
use std::alloc::Global;
use std::test::Fail as Failed;
use terrain_base::{Fail, MemStore, Store, SureStore, Work};

// A store that holds what this one holds, put name by name, and that fails at a call.
fn copy_of(
    alloc: Global,
    held: &mut SureStore,
    call: u64,
    applied: bool,
) -> Result<MemStore, Failed> {
    let mut store = MemStore::new(alloc, &[Fail { call, applied }])?;
    for name in &held.names()? {
        let bytes = held.get(name)?.ok_or("a name that is not held")?;
        store.put(name, &bytes)?;
    }
    Ok(store)
}

// Settles the store, or brings it to version 3 where it is of an old one still. Whether it is opened.
fn goes_on(alloc: Global, store: &mut MemStore) -> bool {
    let mut work = Work::new();
    let opened = match settle(alloc, store, &mut work) {
        Err(EngineAnswer::OldVersion { .. }) => migrate(alloc, store, &mut work),
        settled => settled,
    };
    opened.is_ok()
}

// The first call behind those of a migration, where after a stop at each of them the files come to be these. The calls
// on a copy begin with three puts.
fn calls_to_stop_at(
    alloc: Global,
    held: &mut SureStore,
    applied: bool,
    sum: u64,
) -> Result<Option<u64>, Failed> {
    for call in 3..99u64 {
        let mut store = copy_of(alloc, held, call, applied)?;
        let stopped = migrate(alloc, &mut store, &mut Work::new());
        if stopped.is_ok() {
            return Ok(Some(call));
        }
        if !goes_on(alloc, &mut store) || sum_of(&mut store)? != sum {
            return Ok(None);
        }
    }
    Ok(None)
}

// Whether a stop at each call of a migration, with and without effect, leaves what comes to be the files of version 3,
// and whether its calls end before this one. Manifest and cell are read; the cell is fetched and put where it gets
// another name. Then come the manifest, the names, the deletion of an old name, a get of the cell and six puts of
// tiles, layer, closed manifest and stage.
fn stops_are_right(
    alloc: Global,
    manifest: &[u8],
    of_version_1: bool,
    sum: u64,
    end: u64,
) -> Result<bool, Failed> {
    let mut held = old_database(alloc, manifest, cell_name(of_version_1)?)?;
    let without = calls_to_stop_at(alloc, &mut held, false, sum)?;
    let with = calls_to_stop_at(alloc, &mut held, true, sum)?;
    Ok(without == Some(end) && with == Some(end))
}

#[test]
fn a_stop_of_version_1_comes_to_be_version_3(rt: HostRuntime) -> Result<(), Failed> {
    assert!(rt; stops_are_right(rt.alloc(), ONE_CLOSED, true, FLAT_0, 20)?);
    Ok(())
}

#[test]
fn so_does_one_of_version_1_with_a_cell_on_the_stage(rt: HostRuntime) -> Result<(), Failed> {
    assert!(rt; stops_are_right(rt.alloc(), ONE_PUT, true, FLAT_7, 20)?);
    Ok(())
}

#[test]
fn a_stop_of_version_2_comes_to_be_version_3(rt: HostRuntime) -> Result<(), Failed> {
    assert!(rt; stops_are_right(rt.alloc(), TWO_CLOSED, false, FLAT_0, 17)?);
    Ok(())
}

#[test]
fn so_does_one_of_version_2_with_a_cell_on_the_stage(rt: HostRuntime) -> Result<(), Failed> {
    assert!(rt; stops_are_right(rt.alloc(), TWO_PUT, false, FLAT_7, 19)?);
    Ok(())
}
