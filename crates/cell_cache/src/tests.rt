// The same posts as of cells in memory, and a file that is gone.
ghost use Rattle.std.specs.Prelude.{map, IsTrue};
ghost use Rattle.std.specs.List.Sorted.{IsStrictlySortedBy};
ghost use Rattle.terrain_base.specs.CellKey.{key_cmp};
ghost use Rattle.cell_cache.specs.Cached.{row_key};

use super::*;
use crate::cached::key_of;
use cell_mosaic::{PostSource, Quad, SourceFault};
use dted_cell::{CellBytes, CellTrouble};
use std::alloc::{AllocError, Global};
use terrain_base::{
    CellKey, CellLevel, Name, Post, Square, Store, Summary, SureStore, columns, rows,
};

/// How many cells there are, one more than are kept.
const CELLS: u8 = 9;

/// The cell of level 0 that lies so many degrees east of the null meridian at the south pole. Its posts are as many
/// metres high as its degrees, and those of its column 20 are void.
fn cell_text(alloc: Global, east: u8) -> Result<Vec<u8>, AllocError> {
    let mut cell = vec![in alloc; b' '; 3428]?;
    let degrees = [b'0' + east % 10];
    for (at, text) in [
        (0, b"UHL10000000E0900000S18000300".as_slice()),
        (6, degrees.as_slice()),
        (47, b"00210121".as_slice()),
        (80, b"DSI".as_slice()),
        (139, b"DTED0".as_slice()),
        (224, b"WGS84".as_slice()),
        (728, b"ACC".as_slice()),
    ] {
        if at <= cell.len() && text.len() <= cell.len() - at {
            cell[at..at + text.len()].copy_from_slice(text);
        }
    }
    for col in 0..20u8 {
        push_record(&mut cell, col, [0, east])?;
    }
    push_record(&mut cell, 20, [0xFF, 0xFF])?;
    Ok(cell)
}

fn push_record(cell: &mut Vec<u8>, col: u8, [high, low]: [u8; 2]) -> Result<(), AllocError> {
    cell.extend_from_slice(&[0xAA, 0, 0, col, 0, col, 0, 0])?;
    for _ in 0..121u8 {
        cell.extend_from_slice(&[high, low])?;
    }
    let sum = 170 + 2 * u32::from(col) + 121 * (u32::from(high) + u32::from(low));
    cell.extend_from_slice(&sum.to_be_bytes())
}

/// What such a cell has in a column.
fn post_of_column(east: u8, col: u16) -> Post {
    if col == 20 {
        Post::Void
    } else {
        Post::Metres(i16::from(east))
    }
}

fn cell_at(alloc: Global, east: u8) -> Option<CellBytes> {
    let text = cell_text(alloc, east).ok()?;
    CellBytes::check(text).ok()
}

/// The key of such a cell.
fn key_at(east: u8) -> Option<CellKey> {
    let square = Square::of(180 + u16::from(east), 0)?;
    Some(CellKey {
        square,
        level: CellLevel::Zero,
    })
}

/// Puts the cells into the store, and gives their summaries.
fn stored(alloc: Global, store: &mut SureStore) -> Option<Vec<Summary>> {
    let mut found = Vec::new(alloc);
    for east in 0..CELLS {
        let cell = cell_at(alloc, east)?;
        let view = cell.view();
        let square = view.square();
        let level = view.level();
        let extremes = view.extremes();
        let name = Name::cell(CellKey { square, level });
        store.put(&name, cell.bytes()).ok()?;
        found
            .push(Summary {
                square,
                level,
                extremes,
            })
            .ok()?;
    }
    Some(found)
}

/// Whether the summaries ascend.
fn ascend(summaries: &[Summary]) -> bool
    ensures { IsTrue result → IsStrictlySortedBy key_cmp (map row_key summaries.now) }
{
    for next in 1..summaries.len() {
        if !key_of(&summaries[next - 1]).precedes(&key_of(&summaries[next])) {
            return false;
        }
    }
    true
}

fn source_over(alloc: Global, summaries: &[Summary]) -> Option<CachedCells> {
    if !ascend(summaries) {
        return None;
    }
    CachedCells::new(alloc, summaries).ok()
}

/// What a source gives of a post of the key's cell. There is none where the key's is not the finest cell of its square.
fn post_from<P: PostSource>(
    cells: &mut P,
    store: &mut SureStore,
    key: CellKey,
    col: u16,
    row: u16,
) -> Option<Result<Post, SourceFault>> {
    let square = key.square;
    let level = cells.shape(square)?;
    if level != key.level || col >= columns(square, level) || row >= rows(level) {
        return None;
    }
    Some(cells.post(store, CellKey { square, level }, col, row))
}

/// The same of the posts round a point.
fn quad_from<P: PostSource>(
    cells: &mut P,
    store: &mut SureStore,
    key: CellKey,
    col: u16,
    row: u16,
    on_column: bool,
) -> Option<Result<Quad, SourceFault>> {
    let square = key.square;
    let level = cells.shape(square)?;
    if level != key.level || col >= columns(square, level) || row >= rows(level) {
        return None;
    }
    if row + 1 >= rows(level) || (!on_column && col + 1 >= columns(square, level)) {
        return None;
    }
    let key = CellKey { square, level };
    Some(cells.posts_round(store, key, col, row, on_column, false))
}

#[test]
fn posts_through_the_cache_are_those_of_the_files(rt: HostRuntime) {
    let alloc = rt.alloc();
    let mut store = SureStore::new(alloc);
    let summaries = stored(alloc, &mut store).expect(&rt, "cells");
    let mut cells = source_over(alloc, &summaries).expect(&rt, "a source");
    for turn in 0..3 * CELLS {
        let east = turn % CELLS;
        let key = key_at(east).expect(&rt, "a key");
        for col in [0, u16::from(turn % 20), 20] {
            let post = post_from(&mut cells, &mut store, key, col, 5 * u16::from(east));
            assert_eq!(rt; post, Some(Ok(post_of_column(east, col))));
        }
        assert_eq!(rt; cells.coarser(key), None);
    }
}

#[test]
fn posts_round_a_point_are_those_of_the_files(rt: HostRuntime) {
    let alloc = rt.alloc();
    let mut store = SureStore::new(alloc);
    let summaries = stored(alloc, &mut store).expect(&rt, "cells");
    let mut cells = source_over(alloc, &summaries).expect(&rt, "a source");
    for turn in 0..2 * CELLS {
        let east = turn % CELLS;
        let key = key_at(east).expect(&rt, "a key");
        let metres = post_of_column(east, 0);
        let void = Post::Void;
        // The first is of a cell that was let go, the others of the last.
        for (col, on_column, [sw, se, nw, ne]) in [
            (3, false, [metres, metres, metres, metres]),
            (19, false, [metres, void, metres, void]),
            (19, true, [metres, void, metres, void]),
            (20, true, [void, void, void, void]),
        ] {
            let quad = quad_from(&mut cells, &mut store, key, col, 7, on_column);
            assert_eq!(rt; quad, Some(Ok(Quad { sw, se, nw, ne })));
        }
    }
}

#[test]
fn a_cell_that_is_gone_is_lost(rt: HostRuntime) {
    let alloc = rt.alloc();
    let mut store = SureStore::new(alloc);
    let summaries = stored(alloc, &mut store).expect(&rt, "cells");
    let mut cells = source_over(alloc, &summaries).expect(&rt, "a source");
    let key = key_at(3).expect(&rt, "a key");
    let name = Name::cell(key);
    store.delete(&name).ok().expect(&rt, "memory");
    let post = post_from(&mut cells, &mut store, key, 0, 0);
    let trouble = CellTrouble::Lost { name };
    assert_eq!(rt; post, Some(Err(SourceFault::Cell(trouble))));
}
