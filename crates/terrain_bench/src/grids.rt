// Grids of heights over a cell.

use cell_mosaic::WholeCells;
use dted_cell::CellBytes;
use dted_write::generate;
use resample::tile_grid;
use std::alloc::Global;
use terrain_base::{CellLevel, Grid, NoMemory, Square, Summary, SureStore, TileId};

/// A level 2 cell of a generated landscape, and its summary.
#[derive(Drop)]
pub(crate) struct Landscape {
    pub(crate) cells: WholeCells,
    pub(crate) summary: Summary,
}

// The summary of a cell.
fn summary_of(cell: &CellBytes) -> Summary {
    let view = cell.view();
    Summary {
        square: view.square(),
        level: view.level(),
        extremes: view.extremes(),
    }
}

/// The landscape of a square, by its degrees east of 180 degrees west and north of the south pole. `None` where they
/// are out of range.
pub(crate) fn land_at(alloc: Global, lon: u16, lat: u16) -> Result<Option<Landscape>, NoMemory> {
    let Some(square) = Square::of(lon, lat) else {
        return Ok(None);
    };
    let text = generate(alloc, 9, square, CellLevel::Two)?;
    let Ok(cell) = CellBytes::check(text) else {
        return Ok(None);
    };
    let summary = summary_of(&cell);
    let mut cells = WholeCells::new(alloc);
    match cells.put(cell) {
        Ok(()) => Ok(Some(Landscape { cells, summary })),
        Err(_) => Err(NoMemory),
    }
}

/// The sum of a height of each of so many grids at level 14, inside the cell n46e007, modulo 2^64.
pub(crate) fn sum(alloc: Global, count: u32) -> Result<u64, NoMemory> {
    let Some(mut land) = land_at(alloc, 187, 136)? else {
        return Ok(0);
    };
    let mut store = SureStore::new(alloc);
    let mut grid = Grid::new(alloc)?;
    let mut sum: u64 = 0;
    for k in 0..count {
        let Some(tile) = TileId::of(14, 17_022 + k % 90, 12_380 + k / 90 % 90) else {
            continue;
        };
        if tile_grid(&mut land.cells, &mut store, 0, tile, &mut grid).is_ok() {
            sum = sum.wrapping_add(u64::from(grid.get(33, 33).unsigned_abs()));
        }
    }
    Ok(sum)
}
