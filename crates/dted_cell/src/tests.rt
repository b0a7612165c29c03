// Cells built by hand from the layout of their header, and what is read of them.
use crate::{CellBytes, CellRefusal, CellView, read_facts};
use std::alloc::{AllocError, Global};
use std::io::{self, ErrorKind, Read};
use terrain_base::{CellLevel, Extremes, Post};

// What a cell of one word, but for one post, has in its header and records.
#[derive(Clone, Copy)]
struct Plan {
    origin: &'static [u8],
    intervals: &'static [u8],
    counts: &'static [u8],
    columns: u16,
    rows: u16,
    word: u16,
    odd_col: u16,
    odd_row: u16,
    odd_word: u16,
}

// A cell of level 0 at 0 north 0 east, whose posts are all 0 but for one.
const EQUATOR: Plan = Plan {
    origin: b"0000000E0000000N",
    intervals: b"03000300",
    counts: b"01210121",
    columns: 121,
    rows: 121,
    word: 0,
    odd_col: 5,
    odd_row: 7,
    odd_word: 0,
};

// Writes bytes over those at an offset.
fn put(cell: &mut Vec<u8>, at: usize, text: &[u8]) {
    if at <= cell.len() && text.len() <= cell.len() - at {
        cell[at..at + text.len()].copy_from_slice(text);
    }
}

fn push_word(cell: &mut Vec<u8>, word: u16) -> Result<u32, AllocError> {
    let [high, low] = word.to_be_bytes();
    cell.push(high)?;
    cell.push(low)?;
    Ok(u32::from(high) + u32::from(low))
}

fn push_record(cell: &mut Vec<u8>, plan: &Plan, col: u16) -> Result<(), AllocError> {
    cell.push(0xAA)?;
    cell.push(0)?;
    let count = push_word(cell, col)?;
    let longitude = push_word(cell, col)?;
    let latitude = push_word(cell, 0)?;
    let mut sum = 170u32
        .wrapping_add(count)
        .wrapping_add(longitude)
        .wrapping_add(latitude);
    for row in 0..plan.rows {
        let is_odd = col == plan.odd_col && row == plan.odd_row;
        let word = if is_odd { plan.odd_word } else { plan.word };
        sum = sum.wrapping_add(push_word(cell, word)?);
    }
    cell.extend_from_slice(&sum.to_be_bytes())
}

fn build(alloc: Global, plan: &Plan) -> Result<Vec<u8>, AllocError> {
    let mut cell = vec![in alloc; b' '; 3428]?;
    put(&mut cell, 0, b"UHL1");
    put(&mut cell, 4, plan.origin);
    put(&mut cell, 20, plan.intervals);
    put(&mut cell, 47, plan.counts);
    put(&mut cell, 80, b"DSI");
    put(&mut cell, 139, b"DTED0");
    put(&mut cell, 224, b"WGS84");
    put(&mut cell, 728, b"ACC");
    for col in 0..plan.columns {
        push_record(&mut cell, plan, col)?;
    }
    Ok(cell)
}

// The refusal of a file, if there is one.
fn refusal(bytes: &[u8]) -> Option<CellRefusal> {
    CellView::read(bytes).err()
}

// The post of a file at a column and a row.
fn post(bytes: &[u8], col: u16, row: u16) -> Option<Post> {
    let view = CellView::read(bytes).ok()?;
    if col < view.columns() && row < view.rows() {
        Some(view.post(col, row))
    } else {
        None
    }
}

// The bytes at an offset and behind it.
fn pair(bytes: &[u8], at: usize) -> Option<(u8, u8)> {
    if at < 100 && at + 1 < bytes.len() {
        Some((bytes[at], bytes[at + 1]))
    } else {
        None
    }
}

// The first bytes of a file.
fn front(bytes: &[u8], length: usize) -> &[u8] {
    if length <= bytes.len() {
        &bytes[..length]
    } else {
        bytes
    }
}

#[test]
fn words_are_sign_and_magnitude(rt: HostRuntime) {
    let posts = [
        (0x8001, Post::Metres(-1)),
        (0x8000, Post::Metres(0)),
        (0xFFFF, Post::Void),
        (0x3E80, Post::Metres(16000)),
    ];
    for (word, want) in posts {
        let cell = build(
            rt.alloc(),
            &Plan {
                odd_word: word,
                ..EQUATOR
            },
        )
        .expect(&rt, "memory");
        assert_eq!(rt; post(&cell, 5, 7), Some(want));
    }
    let cell = build(
        rt.alloc(),
        &Plan {
            odd_word: 0x3E81,
            ..EQUATOR
        },
    )
    .expect(&rt, "memory");
    let want = CellRefusal::HeightOutOfRange {
        col: 5,
        row: 7,
        value: 16001,
    };
    assert_eq!(rt; refusal(&cell), Some(want));
}

#[test]
fn checksum_of_a_changed_post_is_refused(rt: HostRuntime) {
    let mut cell = build(rt.alloc(), &EQUATOR).expect(&rt, "memory");
    put(&mut cell, 3428 + 120 * 254 + 9, &[1]);
    let want = CellRefusal::BadChecksum {
        col: 120,
        stated: 410,
        summed: 411,
    };
    assert_eq!(rt; refusal(&cell), Some(want));
}

#[test]
fn cut_cells_are_too_short(rt: HostRuntime) {
    let cell = build(rt.alloc(), &EQUATOR).expect(&rt, "memory");
    assert_eq!(rt; cell.len(), 34162);
    for (have, need) in [(3428, 34162), (34161, 34162), (100, 3428)] {
        let want = CellRefusal::TooShort { need, have };
        assert_eq!(rt; refusal(front(&cell, have as usize)), Some(want));
    }
}

#[test]
fn each_field_is_refused_at_its_place(rt: HostRuntime) {
    let changes: [(usize, &[u8], CellRefusal); 26] = [
        (0, b"X", CellRefusal::NoUhl),
        (4, b"181", CellRefusal::BadField { offset: 4 }),
        (4, b"   ", CellRefusal::BadField { offset: 4 }),
        (7, b"0 ", CellRefusal::BadField { offset: 7 }),
        (9, b"-1", CellRefusal::BadField { offset: 9 }),
        (11, b"X", CellRefusal::BadField { offset: 11 }),
        (12, b"091", CellRefusal::BadField { offset: 12 }),
        (15, b"X0", CellRefusal::BadField { offset: 15 }),
        (17, b"0X", CellRefusal::BadField { offset: 17 }),
        (19, b"E", CellRefusal::BadField { offset: 19 }),
        (20, b"X", CellRefusal::BadField { offset: 20 }),
        (24, b"X", CellRefusal::BadField { offset: 24 }),
        (47, b"X", CellRefusal::BadField { offset: 47 }),
        (51, b"X", CellRefusal::BadField { offset: 51 }),
        (7, b"60", CellRefusal::OffDegree),
        (12, b"090", CellRefusal::OffDegree),
        (24, b"0200", CellRefusal::WrongSpacing),
        (20, b"0600", CellRefusal::WrongSpacing),
        (47, b"0120", CellRefusal::WrongCounts),
        (80, b"X", CellRefusal::NoDsi),
        (139, b"DTED1", CellRefusal::SeriesDisagrees),
        (224, b"WGS72", CellRefusal::NotWgs84),
        (728, b"X", CellRefusal::NoAcc),
        (3428 + 3 * 254, b"X", CellRefusal::BadSentinel { col: 3 }),
        (3428 + 3 * 254 + 5, b"X", CellRefusal::BadColumn { col: 3 }),
        (
            3428 + 3 * 254 + 253,
            b"X",
            CellRefusal::BadChecksum {
                col: 3,
                stated: 88,
                summed: 176,
            },
        ),
    ];
    for (at, text, want) in changes {
        let mut cell = build(rt.alloc(), &EQUATOR).expect(&rt, "memory");
        put(&mut cell, at, text);
        assert_eq!(rt; refusal(&cell), Some(want), "at {at}");
    }
}

// A file with blocks of labels before it.
fn labelled(alloc: Global, blocks: usize, cell: &[u8]) -> Result<Vec<u8>, AllocError> {
    let mut file = Vec::new(alloc);
    for block in 0..blocks {
        file.extend_from_slice(if block == 0 { b"VOL" } else { b"HDR" })?;
        file.extend_from_slice(&[b' '; 77])?;
    }
    file.extend_from_slice(cell)?;
    Ok(file)
}

#[test]
fn at_most_four_labels_lead(rt: HostRuntime) {
    let cell = build(rt.alloc(), &EQUATOR).expect(&rt, "memory");
    for (blocks, need) in [(1, 3508), (2, 3588), (3, 3668), (4, 3748)] {
        let file = labelled(rt.alloc(), blocks, &cell).expect(&rt, "memory");
        assert_eq!(rt; refusal(&file), None);
        let want = CellRefusal::TooShort { need, have: 3500 };
        assert_eq!(rt; refusal(front(&file, 3500)), Some(want));
    }
    let file = labelled(rt.alloc(), 5, &cell).expect(&rt, "memory");
    assert_eq!(rt; refusal(&file), Some(CellRefusal::NoUhl));
}

#[test]
fn polar_cell_has_fewer_columns(rt: HostRuntime) {
    let plan = Plan {
        origin: b"  0 000E0900000S",
        intervals: b"1800 300",
        counts: b"  21 121",
        columns: 21,
        ..EQUATOR
    };
    let cell = build(rt.alloc(), &plan).expect(&rt, "memory");
    assert_eq!(rt; cell.len(), 8762);
    let view = CellView::read(&cell).ok().expect(&rt, "a cell");
    assert_eq!(rt; (view.square().lat(), view.square().lon()), (0, 180));
    assert_eq!(rt;
        (view.level(), view.columns(), view.rows()),
        (CellLevel::Zero, 21, 121)
    );
}

#[test]
fn extremes_pass_over_voids(rt: HostRuntime) {
    let cases = [
        (
            0,
            0x8001,
            0,
            Some(Extremes {
                least: -1,
                greatest: 0,
            }),
        ),
        (
            0xFFFF,
            7,
            14640,
            Some(Extremes {
                least: 7,
                greatest: 7,
            }),
        ),
        (0xFFFF, 0xFFFF, 14641, None),
    ];
    for (word, odd_word, voids, extremes) in cases {
        let plan = Plan {
            word,
            odd_word,
            ..EQUATOR
        };
        let cell = build(rt.alloc(), &plan).expect(&rt, "memory");
        let bytes = CellBytes::check(cell).ok().expect(&rt, "a cell");
        let view = bytes.view();
        assert_eq!(rt; view.voids(), voids);
        assert_eq!(rt; view.extremes(), extremes);
        if 5 < view.columns() && 7 < view.rows() {
            let [high, low] = odd_word.to_be_bytes();
            let profile = view.profile(5);
            assert_eq!(rt; pair(profile.bytes(), 14), Some((high, low)));
            assert_eq!(rt; profile.post(7), view.post(5, 7));
        }
    }
}

#[test]
fn refused_bytes_come_back(rt: HostRuntime) {
    let refused = CellBytes::check(vec![in rt.alloc(); 7u8; 3].expect(&rt, "memory"))
        .err()
        .expect(&rt, "no cell");
    assert_eq!(rt;
        refused.refusal,
        CellRefusal::TooShort {
            need: 3428,
            have: 3
        }
    );
    assert_eq!(rt; refused.bytes.len(), 3);
}

// A reader that fails once its bytes are read.
#[derive(Drop)]
struct Failing<'a> {
    bytes: &'a [u8],
}

impl<'a> Read for Failing<'a> {
    fn read(&mut self, buf: &mut [u8]) -> io::Result<usize> {
        if self.bytes.is_empty() {
            return Err(ErrorKind::PermissionDenied.into());
        }
        self.bytes.read(buf)
    }
}

#[test]
fn facts_are_read_record_by_record(rt: HostRuntime) {
    let plan = Plan {
        word: 0xFFFF,
        odd_word: 7,
        ..EQUATOR
    };
    let mut cell = build(rt.alloc(), &plan).expect(&rt, "memory");
    cell.extend_from_slice(b"behind").expect(&rt, "memory");
    let mut reader: &[u8] = &cell;
    let facts = read_facts(rt.alloc(), &mut reader)
        .expect(&rt, "no failure")
        .expect(&rt, "a cell");
    assert_eq!(rt; (facts.square.lat(), facts.square.lon()), (90, 180));
    assert_eq!(rt; facts.level, CellLevel::Zero);
    assert_eq!(rt; facts.voids, 14640);
    assert_eq!(rt;
        facts.extremes,
        Some(Extremes {
            least: 7,
            greatest: 7
        })
    );
    assert_eq!(rt; reader.len(), 6);
}

#[test]
fn what_is_no_plain_cell_has_no_facts(rt: HostRuntime) {
    let cell = build(rt.alloc(), &EQUATOR).expect(&rt, "memory");
    let mut bad = build(rt.alloc(), &EQUATOR).expect(&rt, "memory");
    put(&mut bad, 3428 + 120 * 254 + 9, &[1]);
    let labels = labelled(rt.alloc(), 1, &cell).expect(&rt, "memory");
    for file in [front(&cell, 100), front(&cell, 34161), &bad, &labels] {
        let mut reader: &[u8] = file;
        let facts = read_facts(rt.alloc(), &mut reader).expect(&rt, "no failure");
        assert!(rt; facts.is_none());
    }
}

#[test]
fn failure_of_a_reader_is_handed_on(rt: HostRuntime) {
    let cell = build(rt.alloc(), &EQUATOR).expect(&rt, "memory");
    for length in [100, 3428, 5000] {
        let mut reader = Failing {
            bytes: front(&cell, length),
        };
        let failure = read_facts(rt.alloc(), &mut reader).err();
        assert_eq!(rt;
            failure.map(|error| error.kind()),
            Some(ErrorKind::PermissionDenied)
        );
    }
}
