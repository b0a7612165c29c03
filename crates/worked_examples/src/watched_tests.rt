//! A store that tells nothing, whose cell changes behind a command.
ghost use Rattle.std.specs.Prelude.{None};

use crate::playing::play;
use crate::samples::{FLAT, flat, level_one, library};
use std::alloc::Global;
use std::test::Fail as Stopped;
use terrain_base::{DeviceFault, Name, Store, SureStore};
use terrain_top::Status;

// A store that gives other bytes under one name, once it has some and from its first put on.
#[derive(Drop)]
struct ChangingStore {
    alloc: Global,
    inner: SureStore,
    name: Name,
    other: Option<Vec<u8>>,
    has_put: bool,
}

impl Store for ChangingStore {
    ghost holds = { λ store. None };

    ghost log = { λ store. None };

    ghost faults = { λ store. ⟦<SureStore as Store>⟧.faults store.inner };

    fn get(&mut self, name: &Name) -> Result<Option<Vec<u8>>, DeviceFault> {
        if self.has_put && *name == self.name {
            if let Some(bytes) = &self.other {
                return Ok(Some(bytes.to_vec(self.alloc)?));
            }
        }
        self.inner.get(name)
    }

    fn put(&mut self, name: &Name, bytes: &[u8]) -> Result<(), DeviceFault> {
        self.has_put = true;
        self.inner.put(name, bytes)
    }

    fn delete(&mut self, name: &Name) -> Result<(), DeviceFault> {
        self.inner.delete(name)
    }

    fn names(&mut self) -> Result<Vec<Name>, DeviceFault> {
        self.inner.names()
    }
}

#[test]
fn a_cell_that_changes_behind_a_command(rt: HostRuntime) -> Result<(), Stopped> {
    let alloc = rt.alloc();
    let mut store = ChangingStore {
        alloc,
        inner: SureStore::new(alloc),
        name: Name::read(b"cells/n00e000.0.dt").ok_or("name")?,
        other: None,
        has_put: false,
    };
    let mut files = library(
        alloc,
        &[("flat", FLAT), ("south", flat(b"0000000E0010000S", 0))],
    )?;
    let rows = [
        ("init 9 0", Status::Done, "created cap 9 fill 0\n"),
        ("add flat", Status::Done, "added n00e000 tiles 22\n"),
    ];
    play(&rt, alloc, &mut store, &mut files, &rows)?;
    store.other = Some(level_one(alloc, Some(0))?);
    store.has_put = false;
    let text = "refused K9 cell changed cells/n00e000.0.dt from level 0 to level 1\n";
    play(
        &rt,
        alloc,
        &mut store,
        &mut files,
        &[("add south", Status::Refused, text)],
    )
}
