// The grid points of a tile that lie in one square.
ghost use Rattle.std.specs.Prelude.{◌≡◌, ◌<◌, IfSome};
ghost use Rattle.terrain_base.specs.Level.{rows_of, columns_of};
ghost use Rattle.resample.specs.Block.{IsBlock};
ghost use Rattle.resample.specs.Line.{IsRun, column_units, row_units, parts_of};

use crate::grid_lines::Run;
use cell_mosaic::PostSource;
use terrain_base::{CellLevel, Square, TileId, columns, rows};

/// The grid points of a run of columns and a run of rows of a tile, the square that they lie in, if they lie on no
/// whole degree, and the finest level of its cells, with the posts that a cell of this level has across and along, or
/// 0.
#[derive(Drop)]
pub(crate) struct Block {
    pub(crate) tile: TileId,
    pub(crate) columns: Run,
    pub(crate) rows: Run,
    pub(crate) square: Square,
    pub(crate) finest: Option<CellLevel>,
    pub(crate) posts_across: u16,
    pub(crate) posts_along: u16,
}

/// The square at these degrees, and any where there is none.
fn square_at(lon: u64, lat: u64) -> Square
    ensures lon { lon < 360 → result.lon ≡ lon }
    ensures lat { lat < 180 → result.lat ≡ lat }
{
    Square {
        lat: lat.min(179) as u16,
        lon: lon.min(359) as u16,
    }
}

/// How many posts the square's cell of the level has across and along, and 0 where there is none.
fn posts_of(square: Square, finest: Option<CellLevel>) -> (u16, u16)
    ensures { IfSome finest (λ level. (result.0 ≡ columns_of square level) × (result.1 ≡ rows_of level)) }
{
    match finest {
        Some(level) => (columns(square, level), rows(level)),
        None => (0, 0),
    }
}

/// The block of a run of columns and a run of rows.
pub(crate) fn block_at<P: PostSource>(src: &P, tile: TileId, columns: Run, rows: Run) -> Block
    requires columns { IsRun (column_units tile) (parts_of tile) columns }
    requires rows { IsRun (row_units tile) (parts_of tile) rows }
    ensures block { IsBlock (P.shapes src.now) result }
    ensures tile { result.tile ≡ tile }
    ensures columns { result.columns ≡ columns }
    ensures rows { result.rows ≡ rows }
{
    let square = square_at(columns.degrees, rows.degrees);
    let finest = src.shape(square);
    let (posts_across, posts_along) = posts_of(square, finest);
    Block {
        tile,
        columns,
        rows,
        square,
        finest,
        posts_across,
        posts_along,
    }
}
