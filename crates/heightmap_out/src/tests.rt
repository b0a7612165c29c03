// Tiles over one cell; the bytes come from outside.
use super::*;
use cell_mosaic::{PostSource, WholeCells};
use dted_cell::CellBytes;
use dted_write::{PostGrid, generate, write_cell};
use std::alloc::Global;
use terrain_base::{CellLevel, Params, Post, Square, Summary, SureStore, TileId};

/// The text of a cell that is 7 metres high everywhere.
fn flat(alloc: Global, square: Square) -> Option<Vec<u8>> {
    let posts = PostGrid::filled(alloc, square, CellLevel::Zero, Post::Metres(7)).ok()?;
    write_cell(alloc, &posts).ok()
}

/// A source of one cell, and the cell in short.
fn one_cell(alloc: Global, text: Vec<u8>) -> Option<(WholeCells, Summary)> {
    let cell = CellBytes::check(text).ok()?;
    let view = cell.view();
    let (square, level, extremes) = (view.square(), view.level(), view.extremes());
    let mut cells = WholeCells::new(alloc);
    if cells.shape(square).is_some() {
        return None;
    }
    cells.put(cell).ok()?;
    let summary = Summary {
        square,
        level,
        extremes,
    };
    Some((cells, summary))
}

/// The bytes of a tile over that cell and a fill of 0.
fn tile_over(alloc: Global, text: Vec<u8>, tile: TileId) -> Option<Vec<u8>> {
    let (mut cells, summary) = one_cell(alloc, text)?;
    let mut store = SureStore::new(alloc);
    let params = Params::of(14, 0)?;
    heightmap(alloc, &mut cells, &mut store, &[summary], &params, tile).ok()
}

/// How many samples have this number.
fn count(view: &HeightmapView<'_>, number: u16) -> u32 {
    let mut count: u32 = 0;
    for k in 0..4225_u16 {
        if view.sample((k / 65) as u8, (k % 65) as u8) == number {
            count = count.wrapping_add(1);
        }
    }
    count
}

#[test]
fn corner_of_a_flat_cell(rt: HostRuntime) {
    let square = Square::of(180, 90).expect(&rt, "n00e000");
    let tile = TileId::of(0, 1, 0).expect(&rt, "0/1/0");
    let text = flat(rt.alloc(), square).expect(&rt, "memory");
    let bytes = tile_over(rt.alloc(), text, tile).expect(&rt, "memory");
    assert_eq!(rt; bytes.len(), 8452);
    assert_eq!(rt;
        (bytes.get(4160).copied(), bytes.get(4161).copied()),
        (Some(0xAB), Some(0x13))
    );
    let view = HeightmapView::read(&bytes).expect(&rt, "a tile");
    assert_eq!(rt;
        (view.sample(32, 0), view.sample(0, 0), view.mask()),
        (5035, 0x1388, 4)
    );
    assert_eq!(rt; count(&view, 5000), 4224);
    assert_eq!(rt; bytes.get(8451).copied(), Some(0));
}

/// The hash FNV-1a of bytes.
fn hash(bytes: &[u8]) -> u64 {
    let mut hash: u64 = 0xcbf2_9ce4_8422_2325;
    for byte in bytes {
        hash = (hash ^ u64::from(*byte)).wrapping_mul(0x100_0000_01b3);
    }
    hash
}

#[test]
fn landscape_with_holes(rt: HostRuntime) {
    let square = Square::of(187, 136).expect(&rt, "n46e007");
    let tile = TileId::of(5, 33, 24).expect(&rt, "5/33/24");
    let text = generate(rt.alloc(), 9, square, CellLevel::Zero).expect(&rt, "memory");
    let bytes = tile_over(rt.alloc(), text, tile).expect(&rt, "memory");
    assert_eq!(rt; hash(&bytes), 0xb549_823b_9537_dcaf);
}

#[test]
fn other_lengths_are_no_tiles(rt: HostRuntime) {
    let bytes = vec![in rt.alloc(); 1_u8; 8451].expect(&rt, "memory");
    assert!(rt; HeightmapView::read(&bytes).is_none());
}
