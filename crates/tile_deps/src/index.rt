// The index: which tiles a square bears upon, and which squares a tile.
ghost use Rattle.std.specs.Prelude.{◌≡◌, ◌≤◌, IfOk, map};

use crate::{CellsOf, TouchedTiles};
use std::alloc::{AllocError, Global};
use terrain_base::{NoMemory, Square, Summary, TileId};

// The square of each cell.
fn squares_in(alloc: Global, summaries: &[Summary]) -> Result<Vec<Square>, AllocError>
    ensures { IfOk result (λ squares. squares.items ≡ map (λ cell. cell.square) summaries.now) }
{
    summaries.iter().map(|cell| cell.square).collect(alloc)
}

/// The squares of a database's cells, and its deepest level.
#[derive(Drop)]
pub struct DepIndex {
    squares: Vec<Square>,
    cap: u8,
    pub ghost cap_in_range: { cap ≤ 14 },
}

impl DepIndex {
    ghost use Rattle.tile_deps.specs.Squares.{squares_of, touching};
    ghost use Rattle.tile_deps.specs.Tiles.{touched};

    /// The index of these cells with the deepest level `cap`, at most 14. The squares stand in it as the cells do,
    /// each once where cells of one square follow each other; so they ascend where the cells do.
    pub fn of(alloc: Global, summaries: &[Summary], cap: u8) -> Result<DepIndex, NoMemory>
        requires { cap ≤ 14 }
        ensures cap { IfOk result (λ index. index.cap ≡ cap) }
        ensures squares { IfOk result (λ index. index.squares.items ≡ squares_of summaries.now) }
    {
        let mut squares = squares_in(alloc, summaries)?;
        squares.dedup();
        Ok(DepIndex { squares, cap })
    }

    // The deepest level.
    pub(crate) fn cap(&self) -> u8
        ensures value { result ≡ self.now.cap }
        ensures level { result ≤ 14 }
    {
        self.cap
    }

    /// All tiles of the levels from 0 to the cap that touch the square, which need not be one of the index: in
    /// order, each once. They are found one after the other.
    pub fn touched(&self, square: Square) -> TouchedTiles<'_>
        ensures { result ≡ touched self.now.cap square }
    {
        TouchedTiles::of(self, square)
    }

    /// The squares of the index that touch the tile, in the index's order.
    pub fn cells_of(&self, tile: TileId) -> CellsOf<'_>
        ensures { result ≡ touching tile self.now.squares.items }
    {
        CellsOf::of(tile, &self.squares)
    }
}
