// Tiles over a cell.

use crate::grids::{Landscape, land_at};
use std::alloc::Global;
use terrain_base::{NoMemory, Params, SureStore, TileId, Work};
use tile_file::make_tile;

// The sum of the lengths of a tile's files; 0 where it can't be made.
fn length(
    alloc: Global,
    land: &mut Landscape,
    store: &mut SureStore,
    params: &Params,
    tile: TileId,
    work: &mut Work,
) -> usize {
    let summaries = [land.summary];
    match make_tile(
        alloc,
        &mut land.cells,
        store,
        &summaries,
        params,
        tile,
        work,
    )
    .ok()
    {
        Some(files) => files.terrain.len().wrapping_add(files.note.len()),
        None => 0,
    }
}

/// The sum of the lengths of the files of a tile of level 8, made so many times, modulo 2^64. Its 6.4 million posts
/// are all of one cell of level 2, n47e007, and its bound is found at each.
pub(crate) fn sum(alloc: Global, count: u32) -> Result<u64, NoMemory> {
    let Some(mut land) = land_at(alloc, 187, 137)? else {
        return Ok(0);
    };
    let (Some(params), Some(tile)) = (Params::of(14, 0), TileId::of(8, 266, 195)) else {
        return Ok(0);
    };
    let mut store = SureStore::new(alloc);
    let mut work = Work::new();
    let mut sum: u64 = 0;
    for _ in 0..count {
        let length = length(alloc, &mut land, &mut store, &params, tile, &mut work);
        sum = sum.wrapping_add(length as u64);
    }
    Ok(sum)
}
