//! Questions about the surface of a stored tile: heights, profiles, lines of sight and what is seen.
use crate::files::{Change, place, play_changes};
use crate::playing::{Row, play};
use crate::samples::{HALVES, SLOPE, TWICE, flat, library, seven_metres, slope_over_vertex};
use std::alloc::Global;
use std::process::Abort;
use std::test::Fail as Stopped;
use terrain_base::{SureLibrary, SureStore};
use terrain_top::Status;

const TILE: &str = "9/512/256.terrain";

// A database to level 9 of one cell that is so many metres high everywhere.
fn one_cell(rt: &impl Abort, alloc: Global, metres: u16) -> Result<SureStore, Stopped> {
    let mut store = SureStore::new(alloc);
    let mut files = library(alloc, &[("flat", flat(b"0000000E0000000N", metres))])?;
    let rows = [
        ("init 9 0", Status::Done, "created cap 9 fill 0\n"),
        ("add flat", Status::Done, "added n00e000 tiles 22\n"),
    ];
    play(rt, alloc, &mut store, &mut files, &rows)?;
    Ok(store)
}

// Asks of a tile that is put in the place of one of the database's own.
fn ask_of_tile(
    rt: &impl Abort,
    alloc: Global,
    tile: &[u8],
    rows: &[Row<'_>],
) -> Result<(), Stopped> {
    let mut store = one_cell(rt, alloc, 0)?;
    place(&mut store, TILE, Some(tile))?;
    play(rt, alloc, &mut store, &mut SureLibrary::new(alloc), rows)
}

#[test]
fn a_flat_surface(rt: HostRuntime) -> Result<(), Stopped> {
    let alloc = rt.alloc();
    let mut store = one_cell(&rt, alloc, 7)?;
    let profile =
        "profile 9/512/256 points 5\n0/1 height 7/1\n16/1057 height 7/1\n16383/32767 height 7/1\n\
         4610/4681 height 7/1\n1/1 height 7/1\n";
    let blocked = "blocked at 16/1057 triangle 0 ground 7/1 line 7383/1057\n";
    let all = "view 9/512/256 vertices 9 seen 9\n0\n1\n2\n3\n4\n5\n6\n7\n8\n";
    let none = "view 9/512/256 vertices 9 seen 0\n";
    let absent = "refused K10 no tile 9/0/0\n";
    let rows = [
        (
            "height 9 648000 324000",
            Status::Done,
            "height 7/1 tile 9/512/256\n",
        ),
        (
            "height 0 1295999 648000",
            Status::Done,
            "height 0/1 tile 0/1/0\n",
        ),
        ("height 0 0 0", Status::Done, "height 0/1 tile 0/0/0\n"),
        ("height 9 0 0", Status::Refused, absent),
        ("profile 9 512 256 0 0 32767 32767", Status::Done, profile),
        ("profile 9 0 0 0 0 32767 32767", Status::Refused, absent),
        (
            "sight 9 512 256 0 0 8 32767 32767 7",
            Status::Done,
            "clear\n",
        ),
        ("sight 9 512 256 0 0 7 32767 32767 6", Status::Done, blocked),
        ("sight 9 0 0 0 0 7 32767 32767 6", Status::Refused, absent),
        ("view 9 512 256 0 0 65535", Status::Done, all),
        ("view 9 512 256 0 0 -65535", Status::Done, none),
        ("view 9 0 0 0 0 0", Status::Refused, absent),
    ];
    play(&rt, alloc, &mut store, &mut SureLibrary::new(alloc), &rows)
}

#[test]
fn a_slope_in_profile_and_in_sight(rt: HostRuntime) -> Result<(), Stopped> {
    let alloc = rt.alloc();
    let tile = seven_metres(alloc, &SLOPE, &HALVES)?;
    let profile = "profile 9/512/256 points 3\n0/1 height 0/1\n1/2 height 7/2\n1/1 height 7/1\n";
    let blocked = "blocked at 1/1 triangle 0 ground 7/1 line 6/1\n";
    let all = "view 9/512/256 vertices 4 seen 4\n0\n1\n2\n3\n";
    let none = "view 9/512/256 vertices 4 seen 0\n";
    let rows = [
        ("profile 9 512 256 0 32767 32767 0", Status::Done, profile),
        ("sight 9 512 256 0 0 0 32767 0 7", Status::Done, "clear\n"),
        ("sight 9 512 256 0 0 6 32767 0 6", Status::Done, blocked),
        ("view 9 512 256 0 0 0", Status::Done, all),
        ("view 9 512 256 0 0 -1", Status::Done, none),
    ];
    ask_of_tile(&rt, alloc, &tile, &rows)
}

// A vertex of no triangle lies 7 metres below the surface. The line to it ends below the surface, from above it too.
#[test]
fn a_vertex_below_the_surface_is_not_seen(rt: HostRuntime) -> Result<(), Stopped> {
    let alloc = rt.alloc();
    let tile = slope_over_vertex(alloc)?;
    let others = "view 9/512/256 vertices 5 seen 4\n0\n1\n2\n3\n";
    let rows = [
        ("view 9 512 256 0 0 0", Status::Done, others),
        ("view 9 512 256 32767 0 7", Status::Done, others),
        ("view 9 512 256 32767 0 8", Status::Done, others),
    ];
    ask_of_tile(&rt, alloc, &tile, &rows)
}

// Row by row the terrain is another, and at last note and terrain are lost.
#[test]
fn tiles_that_give_no_surface(rt: HostRuntime) -> Result<(), Stopped> {
    let alloc = rt.alloc();
    let twice = seven_metres(alloc, &SLOPE, &TWICE)?;
    let broken = seven_metres(alloc, &[0, 2, 0, 1], &HALVES)?;
    let unsound = "refused Q2 unsound slab-gap 0 32767 place 0\n";
    let changes: [Change<'_>; 6] = [
        (
            TILE,
            Some(&[0; 60]),
            (
                "height 9 648000 324000",
                Status::Refused,
                "refused M1 truncated at 0 need 88\n",
            ),
        ),
        (
            TILE,
            Some(&[0x1F, 0x8B, 8, 0]),
            (
                "sight 9 512 256 0 0 0 1 1 0",
                Status::Refused,
                "refused M6 compressed\n",
            ),
        ),
        (
            TILE,
            Some(&broken),
            (
                "view 9 512 256 0 0 0",
                Status::Refused,
                "refused Q1 not whole vertex 1\n",
            ),
        ),
        (
            TILE,
            Some(&twice),
            (
                "profile 9 512 256 0 32767 32767 0",
                Status::Refused,
                unsound,
            ),
        ),
        (
            "9/512/256.txt",
            None,
            (
                "height 9 648000 324000",
                Status::Refused,
                "refused K11 tile lost 9/512/256.txt\n",
            ),
        ),
        (
            TILE,
            None,
            (
                "view 9 512 256 0 0 0",
                Status::Refused,
                "refused K11 tile lost 9/512/256.terrain\n",
            ),
        ),
    ];
    let mut store = one_cell(&rt, alloc, 0)?;
    play_changes(
        &rt,
        alloc,
        &mut store,
        &mut SureLibrary::new(alloc),
        &changes,
    )
}
