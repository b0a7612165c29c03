//! Commands over a database, one after another, over a store in memory.
use crate::files::{EMPTY, FLAT_0, FLAT_7, sum_of};
use crate::playing::{Row, play};
use crate::samples::{FLAT, Sample, flat, level_one, library, polar};
use std::alloc::Global;
use std::process::Abort;
use std::test::Fail as Stopped;
use terrain_base::SureStore;
use terrain_top::Status;

const NEW: Row<'static> = ("init 9 0", Status::Done, "created cap 9 fill 0\n");

const ADDED: Row<'static> = ("add flat", Status::Done, "added n00e000 tiles 22\n");

// Runs commands over an empty store and a library of cells. What is held then, in sum.
fn sum_behind(
    rt: &impl Abort,
    alloc: Global,
    cells: &[(&str, Sample)],
    rows: &[Row<'_>],
) -> Result<u64, Stopped> {
    let mut store = SureStore::new(alloc);
    let mut files = library(alloc, cells)?;
    play(rt, alloc, &mut store, &mut files, rows)?;
    sum_of(&mut store)
}

#[test]
fn empty_set(rt: HostRuntime) -> Result<(), Stopped> {
    let tile = "tile 0/0/0 bytes 254 vertices 9 triangles 12 min 0 max 1 edges 2 2 2 2\n\
         bound 0 tolerance 8192 vertices 9 triangles 12 horizon none\n";
    let rows = [
        (
            "list",
            Status::Refused,
            "refused K5 not a database line 0\n",
        ),
        NEW,
        (
            "init 9 0",
            Status::Refused,
            "refused K4 not empty 0/0/0.terrain\n",
        ),
        ("list", Status::Done, "cap 9 fill 0 cells 0\n"),
        ("inspect 0 0 0", Status::Done, tile),
        (
            "inspect 9 0 0",
            Status::Refused,
            "refused K10 no tile 9/0/0\n",
        ),
        ("deps 9 0 0", Status::Refused, "refused K10 no tile 9/0/0\n"),
        (
            "heightmap 9 0 0",
            Status::Refused,
            "refused K10 no tile 9/0/0\n",
        ),
        ("check", Status::Done, "check good files 6\n"),
    ];
    assert_eq!(rt; sum_behind(&rt, rt.alloc(), &[], &rows)?, EMPTY);
    Ok(())
}

#[test]
fn one_flat_cell(rt: HostRuntime) -> Result<(), Stopped> {
    let tile = "tile 9/512/256 bytes 254 vertices 9 triangles 12 min 0 max 1 edges 2 2 2 2\n\
         bound 0 tolerance 16 vertices 9 triangles 12 horizon 257\n";
    let whole = "tile 0/1/0 bytes 254 vertices 9 triangles 12 min 0 max 1 edges 2 2 2 2\n\
         bound 0 tolerance 8192 vertices 9 triangles 12 horizon none\n";
    let rows = [
        NEW,
        ADDED,
        (
            "list",
            Status::Done,
            "cap 9 fill 0 cells 1\nn00e000 level 0 min 0 max 0\n",
        ),
        ("inspect 9 512 256", Status::Done, tile),
        ("inspect 0 1 0", Status::Done, whole),
        ("check", Status::Done, "check good files 47\n"),
    ];
    assert_eq!(rt;
        sum_behind(&rt, rt.alloc(), &[("flat", FLAT)], &rows)?,
        FLAT_0
    );
    Ok(())
}

#[test]
fn there_and_back(rt: HostRuntime) -> Result<(), Stopped> {
    let alloc = rt.alloc();
    let mut store = SureStore::new(alloc);
    let mut files = library(
        alloc,
        &[("flat", FLAT), ("seven", flat(b"0000000E0000000N", 7))],
    )?;
    let replaced = ("replace seven", Status::Done, "replaced n00e000 tiles 22\n");
    play(&rt, alloc, &mut store, &mut files, &[NEW, ADDED, replaced])?;
    assert_eq!(rt; sum_of(&mut store)?, FLAT_7);
    let removed = (
        "remove n00e000 0",
        Status::Done,
        "removed n00e000 tiles 2\n",
    );
    play(&rt, alloc, &mut store, &mut files, &[removed])?;
    assert_eq!(rt; sum_of(&mut store)?, EMPTY);
    Ok(())
}

#[test]
fn touch_in_one_corner(rt: HostRuntime) -> Result<(), Stopped> {
    let cornered = Sample {
        other_word: 0xFFFF,
        ..FLAT
    };
    let cells = [("flat", cornered), ("south", flat(b"0010000W0010000S", 50))];
    let rows = [
        NEW,
        ADDED,
        ("add south", Status::Done, "added s01w001 tiles 42\n"),
        (
            "deps 9 512 256",
            Status::Done,
            "tile 9/512/256 cells 2\ns01w001\nn00e000\n",
        ),
    ];
    assert_eq!(rt;
        sum_behind(&rt, rt.alloc(), &cells, &rows[..2])?,
        0x09b1faa8db825aff
    );
    assert_eq!(rt;
        sum_behind(&rt, rt.alloc(), &cells, &rows)?,
        0xbf0abddd2bfdecd1
    );
    Ok(())
}

#[test]
fn antimeridian(rt: HostRuntime) -> Result<(), Stopped> {
    let cells = [
        ("west", flat(b"1800000W0100000N", 0)),
        ("east", flat(b"1790000E0100000N", 100)),
    ];
    let last = "tile 9/1023/285 bytes 450 vertices 23 triangles 26 min 0 max 151 edges 2 9 2 9\n\
         bound 100 tolerance 16 vertices 23 triangles 26 horizon 257\n";
    let first = "tile 9/0/285 bytes 254 vertices 9 triangles 12 min 0 max 1 edges 2 2 2 2\n\
         bound 100 tolerance 16 vertices 9 triangles 12 horizon 257\n";
    let rows = [
        NEW,
        ("add west", Status::Done, "added n10w180 tiles 25\n"),
        ("add east", Status::Done, "added n10e179 tiles 48\n"),
        ("inspect 9 1023 285", Status::Done, last),
        ("inspect 9 0 285", Status::Done, first),
        (
            "deps 9 0 285",
            Status::Done,
            "tile 9/0/285 cells 2\nn10w180\nn10e179\n",
        ),
    ];
    assert_eq!(rt;
        sum_behind(&rt, rt.alloc(), &cells, &rows)?,
        0x29b4ff03b6dbb16f
    );
    Ok(())
}

#[test]
fn poles_and_wrap(rt: HostRuntime) -> Result<(), Stopped> {
    let cells = [
        ("south", polar(b"0000000E0900000S", 0)),
        ("north", polar(b"0010000W0890000N", 12)),
    ];
    let list = "cap 9 fill 0 cells 2\ns90e000 level 0 min 0 max 0\nn89w001 level 0 min 12 max 12\n";
    let rows = [
        NEW,
        ("add south", Status::Done, "added s90e000 tiles 22\n"),
        ("add north", Status::Done, "added n89w001 tiles 42\n"),
        ("list", Status::Done, list),
    ];
    assert_eq!(rt;
        sum_behind(&rt, rt.alloc(), &cells, &rows)?,
        0x9f4f7646b323c917
    );
    Ok(())
}

#[test]
fn cells_that_disagree(rt: HostRuntime) -> Result<(), Stopped> {
    let cells = [
        ("west", flat(b"0010000W0000000N", 0)),
        ("flat", flat(b"0000000E0000000N", 30)),
    ];
    let tile = "tile 9/511/256 bytes 422 vertices 21 triangles 24 min 0 max 31 edges 2 8 2 8\n\
         bound 30 tolerance 16 vertices 21 triangles 24 horizon 257\n";
    let rows = [
        NEW,
        ("add west", Status::Done, "added n00w001 tiles 22\n"),
        ("add flat", Status::Done, "added n00e000 tiles 42\n"),
        ("inspect 9 511 256", Status::Done, tile),
    ];
    assert_eq!(rt;
        sum_behind(&rt, rt.alloc(), &cells, &rows)?,
        0x0e9e99d27e2d7248
    );
    Ok(())
}

#[test]
fn a_void_of_a_whole_cell(rt: HostRuntime) -> Result<(), Stopped> {
    let tile = "tile 9/513/257 bytes 254 vertices 9 triangles 12 min -5 max -4 edges 2 2 2 2\n\
         bound 0 tolerance 16 vertices 9 triangles 12 horizon 257\n";
    let rows = [
        ("init 9 -5", Status::Done, "created cap 9 fill -5\n"),
        ADDED,
        (
            "list",
            Status::Done,
            "cap 9 fill -5 cells 1\nn00e000 level 0 min - max -\n",
        ),
        ("inspect 9 513 257", Status::Done, tile),
    ];
    let cells = [("flat", flat(b"0000000E0000000N", 0xFFFF))];
    assert_eq!(rt;
        sum_behind(&rt, rt.alloc(), &cells, &rows)?,
        0xf1498c2e357877d1
    );
    Ok(())
}

#[test]
fn a_far_cell(rt: HostRuntime) -> Result<(), Stopped> {
    let cells = [
        ("west", flat(b"1000000W0400000N", 0)),
        ("east", flat(b"1000000E0400000N", 0)),
    ];
    let rows = [
        NEW,
        ("add west", Status::Done, "added n40w100 tiles 37\n"),
        ("add east", Status::Done, "added n40e100 tiles 67\n"),
    ];
    assert_eq!(rt;
        sum_behind(&rt, rt.alloc(), &cells, &rows)?,
        0x4e04ce7be4b07fc8
    );
    Ok(())
}

#[test]
fn two_levels_in_a_square(rt: HostRuntime) -> Result<(), Stopped> {
    let alloc = rt.alloc();
    let mut store = SureStore::new(alloc);
    let mut files = library(alloc, &[("flat", FLAT)])?;
    files.hold("void", &level_one(alloc, None)?)?;
    files.hold("five", &level_one(alloc, Some(5))?)?;
    let list = "cap 9 fill 0 cells 2\nn00e000 level 1 min - max -\nn00e000 level 0 min 0 max 0\n";
    let filled = [
        NEW,
        ADDED,
        ("add void", Status::Done, "added n00e000 tiles 22\n"),
        ("list", Status::Done, list),
    ];
    play(&rt, alloc, &mut store, &mut files, &filled)?;
    assert_eq!(rt; sum_of(&mut store)?, 0x1a008d51f835687a);
    let tile = "tile 9/512/256 bytes 254 vertices 9 triangles 12 min 5 max 6 edges 2 2 2 2\n\
         bound 5 tolerance 16 vertices 9 triangles 12 horizon 257\n";
    let finer = [
        ("replace five", Status::Done, "replaced n00e000 tiles 22\n"),
        ("inspect 9 512 256", Status::Done, tile),
    ];
    play(&rt, alloc, &mut store, &mut files, &finer)?;
    assert_eq!(rt; sum_of(&mut store)?, 0x76fafbed376aa0a5);
    let removed = (
        "remove n00e000 1",
        Status::Done,
        "removed n00e000 tiles 22\n",
    );
    play(&rt, alloc, &mut store, &mut files, &[removed])?;
    assert_eq!(rt; sum_of(&mut store)?, FLAT_0);
    Ok(())
}

#[test]
fn refused_edits(rt: HostRuntime) -> Result<(), Stopped> {
    let alloc = rt.alloc();
    let mut store = SureStore::new(alloc);
    let mut files = library(alloc, &[("flat", FLAT)])?;
    let mut bad = FLAT.bytes(alloc)?;
    bad.pop();
    files.hold("bad", &bad)?;
    let rows = [
        NEW,
        (
            "replace flat",
            Status::Refused,
            "refused K2 cell absent n00e000 level 0\n",
        ),
        (
            "remove n00e000 2",
            Status::Refused,
            "refused K2 cell absent n00e000 level 2\n",
        ),
        (
            "add bad",
            Status::Refused,
            "refused C1 too short need 34162 have 34161\n",
        ),
        ADDED,
        (
            "add flat",
            Status::Refused,
            "refused K1 cell present n00e000 level 0\n",
        ),
        ("replace flat", Status::Done, "replaced n00e000 tiles 22\n"),
    ];
    play(&rt, alloc, &mut store, &mut files, &rows)?;
    assert_eq!(rt; sum_of(&mut store)?, FLAT_0);
    Ok(())
}

// A cell is kept as it came, with the record before it.
#[test]
fn a_leading_record_is_stored(rt: HostRuntime) -> Result<(), Stopped> {
    let alloc = rt.alloc();
    let mut store = SureStore::new(alloc);
    let mut files = library(alloc, &[])?;
    let mut led = b"HDR".to_vec(alloc)?;
    led.resize(80, b' ')?;
    led.extend_from_slice(&FLAT.bytes(alloc)?)?;
    files.hold("led", &led)?;
    let rows = [
        ("init 0 0", Status::Done, "created cap 0 fill 0\n"),
        ("add led", Status::Done, "added n00e000 tiles 2\n"),
    ];
    play(&rt, alloc, &mut store, &mut files, &rows)?;
    assert_eq!(rt; sum_of(&mut store)?, 0xdc575ac5d9d2e605);
    Ok(())
}

#[test]
fn a_script(rt: HostRuntime) -> Result<(), Stopped> {
    let alloc = rt.alloc();
    let mut store = SureStore::new(alloc);
    let mut files = library(alloc, &[("a.dt0", FLAT)])?;
    let lines =
        b"add a.dt0\nadd a.dt0\nremove n00e000 0\r\n# a note\n\nremove n00e000 0\nadd b.dt0\nadd\nmove a.dt0\n\
          #\xff\nadd a.dt0";
    files.hold("lines", lines.as_slice())?;
    files.hold("none", b"")?;
    let said = "line 1: added n00e000 tiles 22\nline 2: refused K1 cell present n00e000 level 0\n\
         line 3: removed n00e000 tiles 2\nline 6: refused K2 cell absent n00e000 level 0\n\
         line 7: refused F1 absent b.dt0\nline 8: refused F3 not a command\nline 9: refused F3 not a command\n\
         line 10: refused F3 not a command\nline 11: added n00e000 tiles 22\nscript done 3 refused 6\n";
    let rows = [
        NEW,
        ("apply lines", Status::Refused, said),
        ("apply none", Status::Done, "script done 0 refused 0\n"),
    ];
    play(&rt, alloc, &mut store, &mut files, &rows)?;
    assert_eq!(rt; sum_of(&mut store)?, FLAT_0);
    Ok(())
}

// A database of few levels.
#[test]
fn a_database_is_made_asked_and_changed(rt: HostRuntime) -> Result<(), Stopped> {
    let tile = "tile 3/8/4 bytes 254 vertices 9 triangles 12 min 0 max 1 edges 2 2 2 2\n\
         bound 0 tolerance 1024 vertices 9 triangles 12 horizon 277\n";
    let rows = [
        ("init 3 0", Status::Done, "created cap 3 fill 0\n"),
        ("add flat", Status::Done, "added n00e000 tiles 5\n"),
        ("inspect 3 8 4", Status::Done, tile),
        (
            "inspect 3 0 0",
            Status::Refused,
            "refused K10 no tile 3/0/0\n",
        ),
        ("deps 3 8 4", Status::Done, "tile 3/8/4 cells 1\nn00e000\n"),
        ("rebuild", Status::Done, "rebuilt tiles 5\n"),
        ("check", Status::Done, "check good files 13\n"),
        (
            "remove n00e000 0",
            Status::Done,
            "removed n00e000 tiles 2\n",
        ),
    ];
    assert_eq!(rt;
        sum_behind(&rt, rt.alloc(), &[("flat", FLAT)], &rows)?,
        0x3b13e176389c5093
    );
    Ok(())
}

#[test]
fn trials(rt: HostRuntime) -> Result<(), Stopped> {
    let none = "trial 0 1 accepted 0 refused 0 cells 0 tiles 2 bytes 924 scratch 924\n";
    let two = "trial 2 7 accepted 1 refused 1 cells 1 tiles 22 bytes 384396 scratch 384396\n";
    let rows = [
        ("trial 0 1", Status::Done, none),
        ("trial 2 7", Status::Done, two),
    ];
    let nothing = sum_behind(&rt, rt.alloc(), &[], &[])?;
    assert_eq!(rt; sum_behind(&rt, rt.alloc(), &[], &rows)?, nothing);
    Ok(())
}
