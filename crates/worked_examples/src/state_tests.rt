//! Stores that are no good database, or lost some of it, and what commands say of them.
use crate::files::{Change, EMPTY, FLAT_7, place, play_changes, sum_of};
use crate::playing::play;
use crate::samples::{FLAT, flat, level_one, library, polar};
use std::test::Fail as Stopped;
use terrain_base::{Name, Store, SureLibrary, SureStore, TileId};
use terrain_top::Status;

#[test]
fn stores_that_are_no_good_database(rt: HostRuntime) -> Result<(), Stopped> {
    let alloc = rt.alloc();
    let mut short = FLAT.bytes(alloc)?;
    short.truncate(100);
    let south = polar(b"0000000E0900000S", 0).bytes(alloc)?;
    let other = level_one(alloc, Some(0))?;
    let manifest = "manifest.txt";
    let cell = "cells/n00e000.0.dt";
    let deep = b"terrain-db 3\ncap 15\nfill 0\nstate closed\ncells 0\n";
    let first = b"terrain-db 1\ncap 9\nfill 0\nstate closed\ncells 0\n";
    let second = b"terrain-db 2\ncap 9\nfill 0\nstate closed\ncells 0\n";
    let one = b"terrain-db 3\ncap 9\nfill 0\nstate closed\ncells 1\nn00e000 0\n";
    let put = b"terrain-db 3\ncap 9\nfill 0\nstate put n00e000 0\ncells 1\nn00e000 0\n";
    let changed = "refused K9 cell changed cells/n00e000.0.dt from level 0 to level 1\n";
    let bad = "refused K7 cell bad cells/n00e000.0.dt C1 too short need 3428 have 100\n";
    let changes: [Change<'_>; 10] = [
        (
            manifest,
            None,
            (
                "list",
                Status::Refused,
                "refused K5 not a database line 0\n",
            ),
        ),
        (
            manifest,
            Some(deep),
            (
                "list",
                Status::Refused,
                "refused K5 not a database line 2\n",
            ),
        ),
        (
            manifest,
            Some(first),
            ("list", Status::Refused, "refused K12 old version 1\n"),
        ),
        (
            manifest,
            Some(second),
            ("rebuild", Status::Refused, "refused K12 old version 2\n"),
        ),
        (
            manifest,
            Some(one),
            (
                "list",
                Status::Refused,
                "refused K6 cell lost cells/n00e000.0.dt\n",
            ),
        ),
        (
            cell,
            Some(&south),
            (
                "list",
                Status::Refused,
                "refused K8 cell elsewhere cells/n00e000.0.dt s90e000\n",
            ),
        ),
        (cell, Some(&other), ("list", Status::Refused, changed)),
        (cell, Some(&short), ("check", Status::Refused, bad)),
        (
            manifest,
            Some(put),
            ("list", Status::Refused, "refused K6 cell lost stage.dt\n"),
        ),
        (
            cell,
            None,
            (
                "init 9 0",
                Status::Refused,
                "refused K4 not empty manifest.txt\n",
            ),
        ),
    ];
    let mut store = SureStore::new(alloc);
    let mut files = SureLibrary::new(alloc);
    play_changes(&rt, alloc, &mut store, &mut files, &changes)
}

#[test]
fn a_store_that_holds_a_name_is_not_begun(rt: HostRuntime) -> Result<(), Stopped> {
    let alloc = rt.alloc();
    let text = "refused K4 not empty 9/3/4.txt\n";
    let changes: [Change<'_>; 1] = [("9/3/4.txt", Some(b"x"), ("init 9 0", Status::Refused, text))];
    play_changes(
        &rt,
        alloc,
        &mut SureStore::new(alloc),
        &mut SureLibrary::new(alloc),
        &changes,
    )
}

// Row by row a file is lost, and rebuilding makes all good.
#[test]
fn lost_tiles(rt: HostRuntime) -> Result<(), Stopped> {
    let alloc = rt.alloc();
    let changes: [Change<'_>; 5] = [
        (
            "stage.dt",
            None,
            ("init 9 0", Status::Done, "created cap 9 fill 0\n"),
        ),
        (
            "0/1/0.terrain",
            None,
            (
                "inspect 0 1 0",
                Status::Refused,
                "refused K11 tile lost 0/1/0.terrain\n",
            ),
        ),
        (
            "stage.dt",
            Some(b"extra"),
            ("check", Status::Found, "found missing 0/1/0.terrain\n"),
        ),
        (
            "0/0/0.txt",
            None,
            (
                "inspect 0 0 0",
                Status::Refused,
                "refused K11 tile lost 0/0/0.txt\n",
            ),
        ),
        (
            "9/3/4.txt",
            Some(b"extra"),
            ("rebuild", Status::Done, "rebuilt tiles 2\n"),
        ),
    ];
    let mut store = SureStore::new(alloc);
    play_changes(
        &rt,
        alloc,
        &mut store,
        &mut SureLibrary::new(alloc),
        &changes,
    )?;
    assert_eq!(rt; sum_of(&mut store)?, EMPTY);
    Ok(())
}

#[test]
fn a_spoilt_tile(rt: HostRuntime) -> Result<(), Stopped> {
    let alloc = rt.alloc();
    let compressed = [0x1F, 0x8B, 8, 0];
    let changes: [Change<'_>; 3] = [
        (
            "stage.dt",
            None,
            ("init 9 0", Status::Done, "created cap 9 fill 0\n"),
        ),
        (
            "0/0/0.terrain",
            Some(&[0; 60]),
            (
                "inspect 0 0 0",
                Status::Refused,
                "refused M1 truncated at 0 need 88\n",
            ),
        ),
        (
            "0/0/0.terrain",
            Some(&compressed),
            ("inspect 0 0 0", Status::Refused, "refused M6 compressed\n"),
        ),
    ];
    play_changes(
        &rt,
        alloc,
        &mut SureStore::new(alloc),
        &mut SureLibrary::new(alloc),
        &changes,
    )
}

#[test]
fn a_changed_byte_and_an_extra_file_are_found(rt: HostRuntime) -> Result<(), Stopped> {
    let alloc = rt.alloc();
    let mut store = SureStore::new(alloc);
    let mut files = SureLibrary::new(alloc);
    play(
        &rt,
        alloc,
        &mut store,
        &mut files,
        &[("init 9 0", Status::Done, "created cap 9 fill 0\n")],
    )?;
    let tile = TileId::of(0, 0, 0).ok_or("tile")?;
    let whole = store.get(&Name::terrain(tile))?.ok_or("terrain")?;
    let mut changed = whole.to_vec(alloc)?;
    let last = changed.pop().ok_or("byte")?;
    changed.push(last ^ 1)?;
    let changes: [Change<'_>; 3] = [
        (
            "0/0/0.terrain",
            Some(&changed),
            ("check", Status::Found, "found differs 0/0/0.terrain\n"),
        ),
        (
            "0/0/0.terrain",
            Some(&whole),
            ("check", Status::Done, "check good files 6\n"),
        ),
        (
            "9/3/4.txt",
            Some(b"extra"),
            ("check", Status::Found, "found extra 9/3/4.txt\n"),
        ),
    ];
    play_changes(&rt, alloc, &mut store, &mut files, &changes)
}

// What a stop left is finished by the next command that settles.
#[test]
fn stopped_halfway(rt: HostRuntime) -> Result<(), Stopped> {
    let alloc = rt.alloc();
    let seven = flat(b"0000000E0000000N", 7).bytes(alloc)?;
    let dropped = "terrain-db 3\ncap 9\nfill 0\nstate drop n00e000 0\ncells 0\n";
    let put = "terrain-db 3\ncap 9\nfill 0\nstate put n00e000 0\ncells 1\nn00e000 0\n";
    let rebuilt = "terrain-db 3\ncap 9\nfill 3\nstate rebuild\ncells 1\nn00e000 0\n";
    let table = [
        (dropped, "cap 9 fill 0 cells 0\n", EMPTY),
        (
            put,
            "cap 9 fill 0 cells 1\nn00e000 level 0 min 7 max 7\n",
            FLAT_7,
        ),
        (
            rebuilt,
            "cap 9 fill 3 cells 1\nn00e000 level 0 min 0 max 0\n",
            0x8a2eacdf9855b8b4,
        ),
    ];
    let rows = [
        ("init 9 0", Status::Done, "created cap 9 fill 0\n"),
        ("add flat", Status::Done, "added n00e000 tiles 22\n"),
    ];
    for (manifest, list, sum) in table {
        let mut store = SureStore::new(alloc);
        let mut files = library(alloc, &[("flat", FLAT)])?;
        play(&rt, alloc, &mut store, &mut files, &rows)?;
        place(&mut store, "stage.dt", Some(&seven))?;
        place(&mut store, "manifest.txt", Some(manifest.as_bytes()))?;
        play(
            &rt,
            alloc,
            &mut store,
            &mut files,
            &[("list", Status::Done, list)],
        )?;
        assert_eq!(rt; sum_of(&mut store)?, sum);
    }
    Ok(())
}
