// The squares that touch a tile, one after the other.
ghost use Rattle.std.specs.Prelude.{◌≡◌, List};
ghost use Rattle.std.specs.Iterator.{YieldsFirst, item_count};
ghost use Rattle.std.specs.Slice.Iter.{iter_rest};
ghost use Rattle.terrain_base.specs.declared.square.Square as square;
ghost use Rattle.tile_deps.specs.Squares.{touching};

use std::marker::Model;
use std::slice::Iter;
use terrain_base::{Square, TileId};
use tms_tree::touches;

/// The squares that touch a tile and were not given yet, in their order.
#[derive(Drop)]
pub struct CellsOf<'a> {
    tile: TileId,
    later: Iter<'a, Square>,
}

impl<'a> Model for CellsOf<'a> {
    ghost Value = { List square.Square };

    ghost view = { λ cells. touching cells.tile (iter_rest cells.later) };
}

impl<'a> CellsOf<'a> {
    // Those of the squares that touch the tile.
    pub(crate) fn of(tile: TileId, squares: &'a [Square]) -> CellsOf<'a>
        ensures { result ≡ touching tile squares.now }
    {
        CellsOf {
            tile,
            later: squares.iter(),
        }
    }
}

impl<'a> Iterator for CellsOf<'a> {
    type Item = Square;

    ghost next_gives = { YieldsFirst (λ squares. squares) };

    ghost remaining = { item_count (λ squares. squares) };

    fn next(&mut self) -> Option<Square> {
        while let Some(square) = self.later.next() {
            if touches(self.tile, *square) {
                return Some(*square);
            }
        }
        None
    }
}
