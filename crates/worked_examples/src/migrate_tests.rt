//! Databases of older versions, and what `migrate` makes of them.
use crate::files::{Change, FLAT_0, FLAT_7, place, play_changes, sum_of};
use crate::playing::{Row, play};
use crate::samples::{FLAT, flat, level_one, polar};
use std::alloc::Global;
use std::test::Fail as Stopped;
use terrain_base::{Fail, MemStore, Store, SureLibrary, SureStore};
use terrain_top::Status;

const FIRST: &[u8] = b"terrain-db 1\ncap 9\nfill 0\nstate closed\ncells 1\nn00e000\n";

const FIRST_PUT: &[u8] = b"terrain-db 1\ncap 9\nfill 0\nstate put n00e000\ncells 1\nn00e000\n";

const SECOND: &[u8] = b"terrain-db 2\ncap 9\nfill 0\nstate closed\ncells 1\nn00e000 0\n";

const SECOND_PUT: &[u8] = b"terrain-db 2\ncap 9\nfill 0\nstate put n00e000 0\ncells 1\nn00e000 0\n";

const FLAT_0_LIST: &str = "cap 9 fill 0 cells 1\nn00e000 level 0 min 0 max 0\n";

const FLAT_7_LIST: &str = "cap 9 fill 0 cells 1\nn00e000 level 0 min 7 max 7\n";

// Puts the files of an old database, its cell 0 metres high everywhere, and a tile, since migrating reads no tile.
fn lay_down<S: Store>(
    alloc: Global,
    store: &mut S,
    manifest: &[u8],
    cell: &str,
) -> Result<(), Stopped> {
    place(store, "manifest.txt", Some(manifest))?;
    place(store, cell, Some(&FLAT.bytes(alloc)?))?;
    place(store, "0/0/0.terrain", Some(b"old"))
}

// On the stage is a cell that is 7 metres high everywhere.
#[test]
fn an_old_database_is_brought_to_this_version(rt: HostRuntime) -> Result<(), Stopped> {
    let alloc = rt.alloc();
    let seven = flat(b"0000000E0000000N", 7).bytes(alloc)?;
    let first = "refused K12 old version 1\n";
    let second = "refused K12 old version 2\n";
    let of_first = "cells/n00e000.dt";
    let of_second = "cells/n00e000.0.dt";
    let table = [
        (FIRST, of_first, first, FLAT_0_LIST, FLAT_0),
        (FIRST_PUT, of_first, first, FLAT_7_LIST, FLAT_7),
        (SECOND, of_second, second, FLAT_0_LIST, FLAT_0),
        (SECOND_PUT, of_second, second, FLAT_7_LIST, FLAT_7),
    ];
    for (manifest, cell, refusal, list, sum) in table {
        let mut store = SureStore::new(alloc);
        lay_down(alloc, &mut store, manifest, cell)?;
        place(&mut store, "stage.dt", Some(&seven))?;
        place(&mut store, "9/3/4.txt", Some(b"extra"))?;
        let rows = [
            ("list", Status::Refused, refusal),
            ("migrate", Status::Done, "migrated cells 1 tiles 22\n"),
            ("list", Status::Done, list),
            (
                "migrate",
                Status::Refused,
                "refused K13 not old version 3\n",
            ),
        ];
        play(&rt, alloc, &mut store, &mut SureLibrary::new(alloc), &rows)?;
        assert_eq!(rt; sum_of(&mut store)?, sum);
    }
    Ok(())
}

// Three puts lay the database down. Then come two gets and the put of the manifest with its mark; the names; a get, 44
// puts of tiles and one of the layer; and the put of the closed manifest, which is call 53.
#[test]
fn a_migration_stopped_at_its_last_put_is_settled(rt: HostRuntime) -> Result<(), Stopped> {
    let alloc = rt.alloc();
    for applied in [false, true] {
        let mut store = MemStore::new(alloc, &[Fail { call: 53, applied }])?;
        lay_down(alloc, &mut store, SECOND, "cells/n00e000.0.dt")?;
        let mut files = SureLibrary::new(alloc);
        let stopped = ("migrate", Status::StoreFault, "");
        play(&rt, alloc, &mut store, &mut files, &[stopped])?;
        assert_eq!(rt; store.log().len(), 3 + 47);
        let settled = ("list", Status::Done, FLAT_0_LIST);
        play(&rt, alloc, &mut store, &mut files, &[settled])?;
        assert_eq!(rt; sum_of(&mut store)?, FLAT_0);
    }
    Ok(())
}

// A migration that is refused with this text.
fn refused(text: &str) -> Row<'_> {
    ("migrate", Status::Refused, text)
}

// Row by row a file is put, and the migration is refused for what the store then holds.
#[test]
fn old_databases_with_a_bad_cell_are_refused(rt: HostRuntime) -> Result<(), Stopped> {
    let alloc = rt.alloc();
    let mut short = FLAT.bytes(alloc)?;
    short.truncate(100);
    let south = polar(b"0000000E0900000S", 0).bytes(alloc)?;
    let other = level_one(alloc, Some(0))?;
    let manifest = "manifest.txt";
    let cell = "cells/n00e000.0.dt";
    let lost_first = "refused K6 cell lost cells/n00e000.dt\n";
    let lost_stage = "refused K6 cell lost stage.dt\n";
    let bad = "refused K7 cell bad stage.dt C1 too short need 3428 have 100\n";
    let lost_second = "refused K6 cell lost cells/n00e000.0.dt\n";
    let elsewhere = "refused K8 cell elsewhere cells/n00e000.0.dt s90e000\n";
    let changed = "refused K9 cell changed cells/n00e000.0.dt from level 0 to level 1\n";
    let changes: [Change<'_>; 6] = [
        (manifest, Some(FIRST), refused(lost_first)),
        (manifest, Some(FIRST_PUT), refused(lost_stage)),
        ("stage.dt", Some(&short), refused(bad)),
        (manifest, Some(SECOND), refused(lost_second)),
        (cell, Some(&south), refused(elsewhere)),
        (cell, Some(&other), refused(changed)),
    ];
    let mut store = SureStore::new(alloc);
    let mut files = SureLibrary::new(alloc);
    play_changes(&rt, alloc, &mut store, &mut files, &changes)
}

// The line is counted from 1, and is 0 where there is no manifest at all.
#[test]
fn old_databases_without_a_good_manifest_are_refused(rt: HostRuntime) -> Result<(), Stopped> {
    let alloc = rt.alloc();
    let deep = b"terrain-db 1\ncap 15\nfill 0\nstate closed\ncells 0\n";
    let later = b"terrain-db 4\ncap 9\nfill 0\nstate closed\ncells 0\n";
    let keyed = b"terrain-db 1\ncap 9\nfill 0\nstate closed\ncells 1\nn00e000 0\n";
    let squared = b"terrain-db 2\ncap 9\nfill 0\nstate put n00e000\ncells 0\n";
    let manifest = "manifest.txt";
    let changes: [Change<'_>; 6] = [
        (
            "9/3/4.txt",
            Some(b"extra"),
            refused("refused K5 not a database line 0\n"),
        ),
        (
            manifest,
            Some(later),
            refused("refused K5 not a database line 1\n"),
        ),
        (
            manifest,
            Some(deep),
            refused("refused K5 not a database line 2\n"),
        ),
        (
            manifest,
            Some(squared),
            refused("refused K5 not a database line 4\n"),
        ),
        (
            manifest,
            Some(keyed),
            refused("refused K5 not a database line 6\n"),
        ),
        (
            manifest,
            Some(b"terrain-db 3\n"),
            refused("refused K13 not old version 3\n"),
        ),
    ];
    let mut store = SureStore::new(alloc);
    let mut files = SureLibrary::new(alloc);
    play_changes(&rt, alloc, &mut store, &mut files, &changes)
}
