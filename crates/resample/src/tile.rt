// The heights of a tile's grid points.
ghost use Rattle.std.specs.Prelude.{◌≡◌, ◌+◌, ◌*◌, ◌/◌, ◌%◌, ◌<◌, ◌≤◌, Some, IfOk, OnOk, length};
ghost use Rattle.terrain_base.specs.Height.{IsHeight};
ghost use Rattle.tms_tree.specs.Place.{IsPlace};
ghost use Rattle.cell_mosaic.specs.Cells.{Cells, finest_of};
ghost use Rattle.cell_mosaic.specs.Source.{GivesTold, Leaves};
ghost use Rattle.resample.specs.Height.{height_at, grid_of};
ghost use Rattle.resample.specs.Line.{IsLine, IsRun, AreGridLines, row_units, parts_of};
ghost use Rattle.resample.specs.Block.{IsBlock, Fills};

use crate::at_hand::height_at_hand;
use crate::block::{Block, block_at};
use crate::grid_lines::{GridLines, Run, column_lines, row_lines, run_at, turn_run};
use crate::height;
use crate::inside::inside;
use crate::line::Line;
use cell_mosaic::{PostSource, SourceFault};
use terrain_base::{Grid, Store, TileId, columns, rows};
use tms_tree::{Place, tile_place};

/// The height at a place of a block, by the two grid lines through it where it lies on no whole degree.
fn point<P: PostSource, S: Store>(
    src: &mut P,
    store: &mut S,
    fill: i16,
    place: Place,
    block: &Block,
    east: &Line,
    north: &Line,
) -> Result<i16, SourceFault>
    requires fill { IsHeight fill }
    requires place { IsPlace place }
    requires finest { block.now.finest ≡ finest_of (P.shapes src.old) block.now.square }
    requires east { IsLine (180 * place.p) place.d east.now
        × (0 < east.now.rest → block.now.square.lon ≡ east.now.degrees) }
    requires north { IsLine (180 * place.q) place.d north.now
        × (0 < north.now.rest → block.now.square.lat ≡ north.now.degrees) }
    ensures value { GivesTold (P.cells src.old (S.holds store.old))
        (λ told. height_at fill told place) result }
    ensures height { IfOk result IsHeight }
    ensures leaves { Leaves P.cells P.shapes P.sure P.spoilt S.holds S.log S.faults
        src.old src.new store.old store.new result }
{
    if east.rest == 0 || north.rest == 0 {
        return height(src, store, fill, place);
    }
    inside(src, store, fill, place, block, east, north)
}

/// Fills the points of a block in a row of the grid.
fn fill_row<P: PostSource, S: Store>(
    src: &mut P,
    store: &mut S,
    fill: i16,
    block: &Block,
    j: u8,
    lines: &GridLines,
    out: &mut Grid,
) -> Result<(), SourceFault>
    requires fill { IsHeight fill }
    requires block { IsBlock (P.shapes src.old) block.now }
    requires row { (block.now.rows.first ≤ j) × (j < block.now.rows.end) }
    requires lines { AreGridLines block.now.tile lines.now }
    ensures value { OnOk result ((told : Cells) → P.cells src.old (S.holds store.old) ≡ Some told
        → Fills fill told block.now.tile block.now.columns.first block.now.columns.end j (j + 1) out.old out.new) }
    ensures full { OnOk result (length out.new ≡ 4489) }
    ensures leaves { Leaves P.cells P.shapes P.sure P.spoilt S.holds S.log S.faults
        src.old src.new store.old store.new result }
{
    let north = lines.rows[j as usize];
    for i in block.columns.first..block.columns.end {
        let place = tile_place(block.tile, i, j);
        let east = &lines.columns[i as usize];
        let metres = match height_at_hand(src, place, block, east, &north) {
            Some(metres) => metres,
            None => point(src, store, fill, place, block, east, &north)?,
        };
        out.set(i, j, metres);
    }
    Ok(())
}

/// Turns the lines of a block to its finest cell, so that its points find them so.
fn turn_block(block: &Block, lines: &mut GridLines)
    requires block { IsRun (row_units block.now.tile) (parts_of block.now.tile) block.now.rows
        × (block.now.columns.end ≤ 67) }
    requires lines { AreGridLines block.now.tile lines.old }
    ensures { AreGridLines block.now.tile lines.new }
{
    if let Some(level) = block.finest {
        let d = tile_place(block.tile, 0, 0).d;
        turn_run(
            &mut lines.columns,
            block.columns,
            columns(block.square, level),
            d,
        );
        turn_run(&mut lines.rows, block.rows, rows(level), d);
    }
}

/// Fills the points of a block.
fn fill_block<P: PostSource, S: Store>(
    src: &mut P,
    store: &mut S,
    fill: i16,
    block: &Block,
    lines: &mut GridLines,
    out: &mut Grid,
) -> Result<(), SourceFault>
    requires fill { IsHeight fill }
    requires block { IsBlock (P.shapes src.old) block.now }
    requires lines { AreGridLines block.now.tile lines.old }
    ensures value { OnOk result ((told : Cells) → P.cells src.old (S.holds store.old) ≡ Some told
        → Fills fill told block.now.tile block.now.columns.first block.now.columns.end
        block.now.rows.first block.now.rows.end out.old out.new) }
    ensures full { OnOk result (length out.new ≡ 4489) }
    ensures lines { OnOk result (AreGridLines block.now.tile lines.new) }
    ensures leaves { Leaves P.cells P.shapes P.sure P.spoilt S.holds S.log S.faults
        src.old src.new store.old store.new result }
{
    turn_block(block, lines);
    for j in block.rows.first..block.rows.end {
        fill_row(src, store, fill, block, j, lines, out)?;
    }
    Ok(())
}

/// Fills the points of a run of rows, block by block from the west.
fn fill_band<P: PostSource, S: Store>(
    src: &mut P,
    store: &mut S,
    fill: i16,
    tile: TileId,
    rows: Run,
    lines: &mut GridLines,
    out: &mut Grid,
) -> Result<(), SourceFault>
    requires fill { IsHeight fill }
    requires rows { IsRun (row_units tile) (parts_of tile) rows }
    requires lines { AreGridLines tile lines.old }
    ensures value { OnOk result ((told : Cells) → P.cells src.old (S.holds store.old) ≡ Some told
        → Fills fill told tile 0 67 rows.first rows.end out.old out.new) }
    ensures full { OnOk result (length out.new ≡ 4489) }
    ensures lines { OnOk result (AreGridLines tile lines.new) }
    ensures leaves { Leaves P.cells P.shapes P.sure P.spoilt S.holds S.log S.faults
        src.old src.new store.old store.new result }
{
    let mut i = 0;
    while i < 67 {
        let run = run_at(&lines.columns, i);
        let block = block_at(src, tile, run, rows);
        fill_block(src, store, fill, &block, lines, out)?;
        i = run.end;
    }
    Ok(())
}

/// Fills the grid with the heights at the tile's grid points. After an error its contents are not known. Faults have
/// the causes that those of `height` have, and a sure source gives none. The points are filled square by square, so
/// that a source that keeps one cell at a time fetches few of them twice.
pub fn tile_grid<P: PostSource, S: Store>(
    src: &mut P,
    store: &mut S,
    fill: i16,
    tile: TileId,
    out: &mut Grid,
) -> Result<(), SourceFault>
    requires { IsHeight fill }
    ensures value { OnOk result ((told : Cells) → P.cells src.old (S.holds store.old) ≡ Some told
        → out.new ≡ grid_of fill told tile) }
    ensures leaves { Leaves P.cells P.shapes P.sure P.spoilt S.holds S.log S.faults
        src.old src.new store.old store.new result }
{
    let mut lines = GridLines {
        columns: column_lines(tile),
        rows: row_lines(tile),
    };
    let mut j = 0;
    while j < 67 {
        let run = run_at(&lines.rows, j);
        fill_band(src, store, fill, tile, run, &mut lines, out)?;
        j = run.end;
    }
    Ok(())
}
