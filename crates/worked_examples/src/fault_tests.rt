//! Calls on the outside that fail, one in each run.
use crate::files::{FLAT_0, FLAT_7, sum_of};
use crate::playing::{end_of, play};
use crate::samples::{FLAT, flat, library};
use std::alloc::Global;
use std::test::Fail as Stopped;
use terrain_base::{Fail, MemLibrary, MemSink, MemStore, Store, SureLibrary, SureSink, SureStore};
use terrain_top::Status;

#[test]
fn each_failing_call_is_a_fault(rt: HostRuntime) -> Result<(), Stopped> {
    let alloc = rt.alloc();
    let flat = FLAT.bytes(alloc)?;
    let line = b"n00e000 level 0 columns 121 rows 121 min 0 max 0 voids 0\n";
    let fail = Fail {
        call: 0,
        applied: true,
    };
    let none = Fail {
        call: 0,
        applied: false,
    };
    let later = Fail {
        call: 1,
        applied: false,
    };
    let table = [
        (fail, later, Status::InputFault, b"".as_slice()),
        (later, fail, Status::OutputFault, line.as_slice()),
        (later, none, Status::OutputFault, b"".as_slice()),
        (later, later, Status::Done, line.as_slice()),
    ];
    for (of_files, of_out, status, taken) in table {
        let mut files = MemLibrary::new(alloc, &[of_files])?;
        files.hold("cell.dt0", &flat)?;
        let mut out = MemSink::new(alloc, &[of_out])?;
        let mut store = SureStore::new(alloc);
        let ended = end_of(alloc, "cell cell.dt0", &mut store, &mut files, &mut out)?;
        assert_eq!(rt; ended, status);
        assert_eq!(rt; out.taken(), taken);
    }
    Ok(())
}

// A store that holds a database of cap 0 without cells.
fn begun(alloc: Global) -> Result<MemStore, Stopped> {
    let mut store = MemStore::new(alloc, &[])?;
    let mut files = SureLibrary::new(alloc);
    let mut out = SureSink::new(alloc);
    end_of(alloc, "init 0 0", &mut store, &mut files, &mut out)?;
    Ok(store)
}

#[test]
fn a_failing_call_stops_a_script(rt: HostRuntime) -> Result<(), Stopped> {
    let alloc = rt.alloc();
    let fail = |call| Fail {
        call,
        applied: false,
    };
    let never = u64::MAX;
    let first = "line 1: added n00e000 tiles 2\n";
    let table = [
        (fail(0), fail(never), fail(never), Status::StoreFault, ""),
        (fail(never), fail(0), fail(never), Status::InputFault, ""),
        (fail(never), fail(2), fail(never), Status::InputFault, first),
        (fail(never), fail(never), fail(0), Status::OutputFault, ""),
        (
            fail(never),
            fail(never),
            fail(1),
            Status::OutputFault,
            first,
        ),
    ];
    for (of_store, of_files, of_out, status, text) in table {
        let mut store = if of_store.call == 0 {
            MemStore::new(alloc, &[of_store])?
        } else {
            begun(alloc)?
        };
        let mut files = MemLibrary::new(alloc, &[of_files])?;
        files.hold(
            "three",
            b"add flat.dt0\nreplace flat.dt0\nremove n00e000 0\n",
        )?;
        files.hold("flat.dt0", &FLAT.bytes(alloc)?)?;
        let mut out = MemSink::new(alloc, &[of_out])?;
        let ended = end_of(alloc, "apply three", &mut store, &mut files, &mut out)?;
        assert_eq!(rt; ended, status);
        assert_eq!(rt; out.taken(), text.as_bytes());
    }
    Ok(())
}

#[test]
fn a_failing_list_of_names_stops_a_script(rt: HostRuntime) -> Result<(), Stopped> {
    let alloc = rt.alloc();
    let fail = |call| Fail {
        call,
        applied: false,
    };
    // The beginning is stopped behind its mark, where it asks for the names; then so is the script, which settles it.
    let mut store = MemStore::new(alloc, &[fail(2), fail(4)])?;
    let mut files = SureLibrary::new(alloc);
    files.hold("one", b"remove n00e000 0\n")?;
    let said = "line 1: refused K2 cell absent n00e000 level 0\nscript done 0 refused 1\n";
    let rows = [
        ("init 0 0", Status::StoreFault, ""),
        ("apply one", Status::StoreFault, ""),
        ("apply one", Status::Refused, said),
    ];
    play(&rt, alloc, &mut store, &mut files, &rows)
}

// A store that holds what this one holds, put name by name, and that fails at a call.
fn copy_of(alloc: Global, held: &mut SureStore, fail: Fail) -> Result<MemStore, Stopped> {
    let mut store = MemStore::new(alloc, &[fail])?;
    for name in &held.names()? {
        let bytes = held.get(name)?.ok_or("a name that is not held")?;
        store.put(name, &bytes)?;
    }
    Ok(store)
}

// The calls on a copy begin with 47 puts. Then come two gets and the delete of settling, which is the first change; the
// stage, the manifest with its mark, and the cell; a get; 110 changes of tiles; layer, closed manifest and stage. From
// the mark on, which is call 51, settling goes on to the new files.
#[test]
fn stops(rt: HostRuntime) -> Result<(), Stopped> {
    let alloc = rt.alloc();
    let mut held = SureStore::new(alloc);
    let mut files = library(
        alloc,
        &[("flat", FLAT), ("seven", flat(b"0000000E0000000N", 7))],
    )?;
    let rows = [
        ("init 9 0", Status::Done, "created cap 9 fill 0\n"),
        ("add flat", Status::Done, "added n00e000 tiles 22\n"),
    ];
    play(&rt, alloc, &mut held, &mut files, &rows)?;
    let old = (
        "cap 9 fill 0 cells 1\nn00e000 level 0 min 0 max 0\n",
        FLAT_0,
    );
    let new = (
        "cap 9 fill 0 cells 1\nn00e000 level 0 min 7 max 7\n",
        FLAT_7,
    );
    let table = [
        (49, false, old),
        (49, true, old),
        (50, true, old),
        (51, false, old),
        (51, true, new),
        (52, false, new),
        (54, true, new),
        (110, false, new),
        (163, true, new),
        (165, false, new),
        (166, false, new),
    ];
    for (call, applied, (list, sum)) in table {
        let mut store = copy_of(alloc, &mut held, Fail { call, applied })?;
        let rows = [
            ("replace seven", Status::StoreFault, ""),
            ("list", Status::Done, list),
        ];
        play(&rt, alloc, &mut store, &mut files, &rows)?;
        assert_eq!(rt; sum_of(&mut store)?, sum);
    }
    Ok(())
}
