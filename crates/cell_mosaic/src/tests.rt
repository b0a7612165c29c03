// Candidates and blends of worked places, and a cell in memory.
ghost use Rattle.std.specs.Prelude.{IsTrue};
ghost use Rattle.dted_cell.specs.Elevation.{IsPost};

use super::*;
use dted_cell::CellBytes;
use std::alloc::{AllocError, Global};
use terrain_base::{CellKey, Post, Square, SureStore, columns, rows};
use tms_tree::Place;

/// Whether these squares, by longitude and latitude, are the candidates of the place.
fn are_candidates(p: u64, q: u64, d: u64, want: &[(u16, u16)]) -> bool {
    if d == 0 || d > 1 << 29 || p > 2 * d || q > d {
        return false;
    }
    let list = candidates(Place { p, q, d });
    let mut agree = list.count() as usize == want.len();
    for k in 0..list.count() {
        let at = list.at(k);
        agree &= want.get(k as usize).copied() == Some((at.lon(), at.lat()));
    }
    agree
}

#[test]
fn candidates_at_the_poles_and_the_antimeridian(rt: HostRuntime) {
    let corner = [(0, 90), (359, 90), (0, 89), (359, 89)];
    assert!(rt; are_candidates(2, 0, 2, &[(180, 0), (179, 0)]));
    assert!(rt; are_candidates(2, 2, 2, &[(180, 179), (179, 179)]));
    assert!(rt; are_candidates(0, 1, 2, &corner));
    assert!(rt; are_candidates(4, 1, 2, &corner));
}

/// Whether the post is void or its metres are within -16000 to 16000.
fn is_post(post: Post) -> bool
    ensures { IsTrue result → IsPost post }
{
    match post {
        Post::Void => true,
        Post::Metres(metres) => -16000 <= metres && metres <= 16000,
    }
}

/// The value between the posts at fractions of quarters, each so many units long.
fn value_at(quad: &Quad, east: u8, north: u8, length: u32) -> Option<Post> {
    if !is_post(quad.sw) || !is_post(quad.se) || !is_post(quad.nw) || !is_post(quad.ne) {
        return None;
    }
    if east > 4 || north > 4 || length == 0 {
        return None;
    }
    let quarter = u128::from(length);
    Some(blend(
        quad,
        u128::from(east) * quarter,
        4 * quarter,
        u128::from(north) * quarter,
        4 * quarter,
    ))
}

#[test]
fn blends_with_and_without_voids(rt: HostRuntime) {
    let (sw, se) = (Post::Metres(10), Post::Metres(20));
    let (nw, ne) = (Post::Metres(30), Post::Metres(40));
    let void = Post::Void;
    let cases = [
        ([sw, se, nw, ne], 1, 2, Post::Metres(23)),
        ([void, se, nw, ne], 1, 2, Post::Metres(30)),
        ([void, void, void, ne], 1, 2, Post::Metres(40)),
        ([void, void, void, void], 1, 2, Post::Void),
        ([sw, void, nw, ne], 0, 2, Post::Metres(20)),
        ([void, se, nw, ne], 2, 2, Post::Metres(20)),
        (
            [Post::Metres(-1), Post::Metres(0), void, void],
            2,
            0,
            Post::Metres(0),
        ),
    ];
    for ([sw, se, nw, ne], east, north, want) in cases {
        let quad = Quad { sw, se, nw, ne };
        // in 64 bits, in 64 bits by a 32nd of the units, and in 128 bits
        assert_eq!(rt; value_at(&quad, east, north, 1), Some(want));
        assert_eq!(rt; value_at(&quad, east, north, 0x400_0000), Some(want));
        assert_eq!(rt; value_at(&quad, east, north, 0x200_0001), Some(want));
    }
}

/// The text of a cell of level 0 at the south pole, whose posts are all of one word.
fn polar_cell(alloc: Global, word: u16) -> Result<Vec<u8>, AllocError> {
    let mut cell = vec![in alloc; b' '; 3428]?;
    for (at, text) in [
        (0, b"UHL10000000E0900000S18000300".as_slice()),
        (47, b"00210121".as_slice()),
        (80, b"DSI".as_slice()),
        (139, b"DTED0".as_slice()),
        (224, b"WGS84".as_slice()),
        (728, b"ACC".as_slice()),
    ] {
        if at <= cell.len() && text.len() <= cell.len() - at {
            cell[at..at + text.len()].copy_from_slice(text);
        }
    }
    for col in 0..21u8 {
        push_record(&mut cell, col, word)?;
    }
    Ok(cell)
}

fn push_record(cell: &mut Vec<u8>, col: u8, word: u16) -> Result<(), AllocError> {
    let [high, low] = word.to_be_bytes();
    cell.extend_from_slice(&[0xAA, 0, 0, col, 0, col, 0, 0])?;
    for _ in 0..121u8 {
        cell.extend_from_slice(&[high, low])?;
    }
    let sum = 170 + 2 * u32::from(col) + 121 * (u32::from(high) + u32::from(low));
    cell.extend_from_slice(&sum.to_be_bytes())
}

#[test]
fn a_cell_in_memory_gives_its_posts(rt: HostRuntime) {
    let text = polar_cell(rt.alloc(), 0x8007).expect(&rt, "memory");
    let cell = CellBytes::check(text).ok().expect(&rt, "a cell");
    let mut cells = WholeCells::new(rt.alloc());
    cells.put(cell).ok().expect(&rt, "memory");
    let square = Square::of(180, 0).expect(&rt, "a square");
    let level = cells.shape(square).expect(&rt, "a level");
    let mut store = SureStore::new(rt.alloc());
    let corner = Place { p: 2, q: 0, d: 2 };
    let value = cell_value(&mut cells, &mut store, square, corner);
    assert_eq!(rt; value, Ok(Post::Metres(-7)));
    let key = CellKey { square, level };
    if 20 < columns(square, level) && 120 < rows(level) {
        let post = cells.post(&mut store, key, 20, 120);
        assert_eq!(rt; post, Ok(Post::Metres(-7)));
    }
}
