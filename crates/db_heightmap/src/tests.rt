//! A tile of a database in memory. Its bytes are worked out by hand: 7 metres are 5 * 1007 fifths above -1000 metres.
use super::*;
use database::EngineAnswer;
use db_engine::{add, init};
use dted_cell::CellBytes;
use dted_write::{PostGrid, write_cell};
use std::alloc::Global;
use std::test::Fail as Failed;
use terrain_base::{CellLevel, MemStore, Params, Post, Square, TileId, Work};

// The cell from the equator and the prime meridian on that is 7 metres high everywhere.
fn flat_cell(alloc: Global) -> Result<CellBytes, Failed> {
    let square = Square::of(180, 90).ok_or("square")?;
    let posts = PostGrid::filled(alloc, square, CellLevel::Zero, Post::Metres(7))?;
    let bytes = write_cell(alloc, &posts)?;
    let cell = CellBytes::check(bytes).map_err(|refused| refused.refusal)?;
    Ok(cell)
}

#[test]
fn the_eastern_half_has_one_sample_of_a_flat_cell(rt: HostRuntime) -> Result<(), Failed> {
    let alloc = rt.alloc();
    let cell = flat_cell(alloc)?;
    let params = Params::of(9, 0).ok_or("params")?;
    let mut store = MemStore::new(alloc, &[])?;
    let mut opened = init(alloc, &mut store, params, &mut Work::new())?;
    add(alloc, &mut store, &mut opened, &cell, &mut Work::new())?;
    let tile = TileId::of(0, 1, 0).ok_or("tile")?;
    let bytes = heightmap_tile(alloc, &mut store, &opened, tile)?;
    assert_eq!(rt; bytes.len(), 8452);
    for at in 0..4225_usize {
        let sample = bytes.get(2 * at..2 * at + 2);
        let number = if at == 2080 {
            [0xAB, 0x13]
        } else {
            [0x88, 0x13]
        };
        assert_eq!(rt; sample, Some(number.as_slice()));
    }
    // The north-western child alone exists, and the tile is land.
    assert_eq!(rt; bytes.get(8450..), Some(&[4, 0][..]));
    let tile = TileId::of(9, 0, 0).ok_or("tile")?;
    let refused = heightmap_tile(alloc, &mut store, &opened, tile);
    assert_eq!(rt; refused.err(), Some(EngineAnswer::NoTile { tile }));
    Ok(())
}
