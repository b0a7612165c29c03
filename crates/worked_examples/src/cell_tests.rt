//! What `cell` prints of cells, and of files that are none.
use crate::playing::play_file;
use crate::samples::{FLAT, Sample, flat, polar};
use dted_write::generate;
use std::alloc::{AllocError, Global};
use std::test::Fail as Stopped;
use terrain_base::{CellLevel, Square};
use terrain_top::Status;

// The line of the cell that is 0 metres high everywhere, at n00e000.
const FLAT_LINE: &str = "n00e000 level 0 columns 121 rows 121 min 0 max 0 voids 0\n";

#[test]
fn cells_print_their_lines(rt: HostRuntime) -> Result<(), Stopped> {
    let table = [
        (
            FLAT,
            "n00e000 level 0 columns 121 rows 121 min 0 max 0 voids 0\n",
        ),
        (
            Sample {
                origin: *b"0000000E0900000S",
                interval: *b"1800",
                counts: *b"00210121",
                columns: 21,
                ..FLAT
            },
            "s90e000 level 0 columns 21 rows 121 min 0 max 0 voids 0\n",
        ),
        (
            Sample {
                other_at: (0, 0),
                other_word: 0xFFFF,
                ..FLAT
            },
            "n00e000 level 0 columns 121 rows 121 min 0 max 0 voids 1\n",
        ),
        (
            Sample {
                origin: *b"0010000W0010000S",
                word: 0x8005,
                other_at: (120, 120),
                other_word: 0xBE80,
                ..FLAT
            },
            "s01w001 level 0 columns 121 rows 121 min -16000 max -5 voids 0\n",
        ),
        (
            Sample {
                origin: *b"0010000W0010000S",
                word: 0x8005,
                other_at: (7, 3),
                other_word: 0x3E80,
                ..FLAT
            },
            "s01w001 level 0 columns 121 rows 121 min -5 max 16000 voids 0\n",
        ),
        (
            Sample {
                origin: *b"1800000E0490000N",
                word: 0xFFFF,
                other_word: 0xFFFF,
                ..FLAT
            },
            "n49w180 level 0 columns 121 rows 121 min - max - voids 14641\n",
        ),
        (
            Sample {
                origin: *b"1800000W0500000N",
                interval: *b"0600",
                counts: *b"00610121",
                columns: 61,
                word: 0x8000,
                other_at: (60, 0),
                other_word: 1,
            },
            "n50w180 level 0 columns 61 rows 121 min 0 max 1 voids 0\n",
        ),
    ];
    let alloc = rt.alloc();
    for (sample, line) in &table {
        let row = ("cell cell.dt0", Status::Done, *line);
        play_file(&rt, alloc, "cell.dt0", &sample.bytes(alloc)?, row)?;
    }
    Ok(())
}

// A level 1 cell of a generated landscape, with the voids of an odd number.
#[test]
fn generated_cell_prints_its_line(rt: HostRuntime) -> Result<(), Stopped> {
    let alloc = rt.alloc();
    let square = Square::read(b"n46e007").ok_or("square")?;
    let bytes = generate(alloc, 9, square, CellLevel::One)?;
    let line = "n46e007 level 1 columns 1201 rows 1201 min 16 max 1978 voids 22201\n";
    play_file(
        &rt,
        alloc,
        "hills.dt1",
        &bytes,
        ("cell hills.dt1", Status::Done, line),
    )
}

// The flat cell, cut to a length and with another byte in one place.
fn spoilt(alloc: Global, length: usize, at: usize, byte: u8) -> Result<Vec<u8>, AllocError> {
    let mut bytes = FLAT.bytes(alloc)?;
    bytes.truncate(length);
    if at < bytes.len() {
        bytes[at] = byte;
    }
    Ok(bytes)
}

#[test]
fn cut_cells_and_changed_bytes_are_refused_by_name_and_place(
    rt: HostRuntime,
) -> Result<(), Stopped> {
    let alloc = rt.alloc();
    let none = usize::MAX;
    let table = [
        (3428, none, 0, "refused C1 too short need 34162 have 3428\n"),
        (
            34161,
            none,
            0,
            "refused C1 too short need 34162 have 34161\n",
        ),
        (100, none, 0, "refused C1 too short need 3428 have 100\n"),
        (34162, 0, b'X', "refused C2 no UHL\n"),
        (34162, 11, b'X', "refused C3 bad field at 11\n"),
        (34162, 7, b'3', "refused C4 off degree\n"),
        (34162, 21, b'6', "refused C5 wrong spacing\n"),
        (34162, 48, b'0', "refused C6 wrong counts\n"),
        (34162, 82, b'X', "refused C7 no DSI\n"),
        (34162, 143, b'1', "refused C8 series disagrees\n"),
        (34162, 228, b'2', "refused C9 not WGS84\n"),
        (34162, 730, b'X', "refused C10 no ACC\n"),
        (34162, 3428, 0, "refused C11 bad sentinel column 0\n"),
        (34162, 3433, 1, "refused C12 bad column 0\n"),
        (
            34162,
            33917,
            1,
            "refused C13 bad checksum column 120 stated 410 summed 411\n",
        ),
    ];
    for (length, at, byte, line) in table {
        let row = ("cell cell.dt0", Status::Refused, line);
        play_file(
            &rt,
            alloc,
            "cell.dt0",
            &spoilt(alloc, length, at, byte)?,
            row,
        )?;
    }
    Ok(())
}

#[test]
fn an_elevation_above_16000_metres_is_refused(rt: HostRuntime) -> Result<(), Stopped> {
    let alloc = rt.alloc();
    let high = Sample {
        other_at: (5, 7),
        other_word: 0x3E81,
        ..FLAT
    };
    let line = "refused C14 height column 5 row 7 value 16001\n";
    play_file(
        &rt,
        alloc,
        "cell.dt0",
        &high.bytes(alloc)?,
        ("cell cell.dt0", Status::Refused, line),
    )
}

#[test]
fn a_leading_record_is_passed_over(rt: HostRuntime) -> Result<(), Stopped> {
    let alloc = rt.alloc();
    let mut led = b"HDR".to_vec(alloc)?;
    led.resize(80, b' ')?;
    led.extend_from_slice(&FLAT.bytes(alloc)?)?;
    play_file(
        &rt,
        alloc,
        "led.dt0",
        &led,
        ("cell led.dt0", Status::Done, FLAT_LINE),
    )
}
