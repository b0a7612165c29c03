//! A store that tells nothing: which cells are read, and what is answered where one changes behind the engine.
ghost use Rattle.std.specs.Prelude.{None};

use super::*;
use database::EngineAnswer;
use dted_cell::{CellBytes, CellTrouble};
use dted_write::{PostGrid, write_cell};
use std::alloc::Global;
use std::test::Fail as Failed;
use terrain_base::{
    CellKey, CellLevel, DeviceFault, Name, Params, Post, Square, Store, SureStore, Work,
};

// A store that counts how often one name is asked for, and gives other bytes there once it has some.
#[derive(Drop)]
struct WatchedStore {
    alloc: Global,
    inner: SureStore,
    name: Name,
    other: Option<Vec<u8>>,
    gets: u64,
}

impl Store for WatchedStore {
    ghost holds = { λ store. None };

    ghost log = { λ store. None };

    ghost faults = { λ store. ⟦<SureStore as Store>⟧.faults store.inner };

    fn get(&mut self, name: &Name) -> Result<Option<Vec<u8>>, DeviceFault> {
        if *name == self.name {
            self.gets = self.gets.saturating_add(1);
            if let Some(bytes) = &self.other {
                return Ok(Some(bytes.to_vec(self.alloc)?));
            }
        }
        self.inner.get(name)
    }

    fn put(&mut self, name: &Name, bytes: &[u8]) -> Result<(), DeviceFault> {
        self.inner.put(name, bytes)
    }

    fn delete(&mut self, name: &Name) -> Result<(), DeviceFault> {
        self.inner.delete(name)
    }

    fn names(&mut self) -> Result<Vec<Name>, DeviceFault> {
        self.inner.names()
    }
}

// The cell of this key that is 0 metres high everywhere.
fn flat(alloc: Global, key: CellKey) -> Result<CellBytes, Failed> {
    let posts = PostGrid::filled(alloc, key.square, key.level, Post::Metres(0))?;
    let bytes = write_cell(alloc, &posts)?;
    let cell = CellBytes::check(bytes).map_err(|refused| refused.refusal)?;
    Ok(cell)
}

// The key of level 0 of the square of these degrees from the antimeridian and from the south pole.
fn key(east: u16, north: u16) -> Result<CellKey, Failed> {
    let square = Square::of(east, north).ok_or("square")?;
    let level = CellLevel::Zero;
    Ok(CellKey { square, level })
}

// The database to level 9 of the flat cell of the key, where that cell is watched.
fn watched(alloc: Global, key: CellKey) -> Result<WatchedStore, Failed> {
    let params = Params::of(9, 0).ok_or("params")?;
    let mut store = WatchedStore {
        alloc,
        inner: SureStore::new(alloc),
        name: Name::cell(key),
        other: None,
        gets: 0,
    };
    let mut work = Work::new();
    let mut opened = init(alloc, &mut store, params, &mut work)?;
    add(
        alloc,
        &mut store,
        &mut opened,
        &flat(alloc, key)?,
        &mut work,
    )?;
    Ok(store)
}

#[test]
fn a_far_cell_stays_unread(rt: HostRuntime) -> Result<(), Failed> {
    let alloc = rt.alloc();
    let mut store = watched(alloc, key(80, 130)?)?;
    let mut opened = settle(alloc, &mut store, &mut Work::new())?;
    store.gets = 0;
    let mut work = Work::new();
    let near = flat(alloc, key(280, 130)?)?;
    add(alloc, &mut store, &mut opened, &near, &mut work)?;
    assert_eq!(rt; store.gets, 0);
    assert!(rt; work.tiles() <= 31);
    Ok(())
}

#[test]
fn a_stored_cell_that_changes_is_told_with_both_levels(rt: HostRuntime) -> Result<(), Failed> {
    let alloc = rt.alloc();
    let key_0 = key(180, 90)?;
    let level = CellLevel::One;
    let mut store = watched(alloc, key_0)?;
    let mut opened = settle(alloc, &mut store, &mut Work::new())?;
    let other = PostGrid::filled(alloc, key_0.square, level, Post::Metres(0))?;
    store.other = Some(write_cell(alloc, &other)?);
    let south = flat(alloc, key(180, 89)?)?;
    let answered = add(alloc, &mut store, &mut opened, &south, &mut Work::new());
    let trouble = CellTrouble::Changed {
        name: Name::cell(key_0),
        opened: CellLevel::Zero,
        found: level,
    };
    assert_eq!(rt; answered.err(), Some(EngineAnswer::Trouble(trouble)));
    assert!(rt; !opened.live());
    Ok(())
}
