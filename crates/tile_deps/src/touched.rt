// The tiles that touch a square, one after the other.
ghost use Rattle.std.specs.Prelude.{◌≡◌, ◌≤◌, List, true};
ghost use Rattle.std.specs.Iterator.{YieldsFirst, item_count};
ghost use Rattle.terrain_base.specs.declared.tile.TileId as tile;
ghost use Rattle.tile_deps.specs.Tiles.{touched};
ghost use Rattle.tile_deps.specs.Walk.{is_touched, touched_from};

use crate::DepIndex;
use crate::next_tile::{first_touched, next_touched};
use std::marker::Model;
use terrain_base::{Square, TileId};

/// The tiles that touch a square and were not given yet, in their order.
#[derive(Drop)]
pub struct TouchedTiles<'a> {
    index: &'a DepIndex,
    square: Square,
    next: Option<TileId>,
}

impl<'a> Model for TouchedTiles<'a> {
    ghost Value = { List tile.TileId };

    ghost view = { λ tiles. touched_from tiles.index.now.cap tiles.square tiles.next };

    ghost invariant = { λ tiles. is_touched tiles.index.now.cap tiles.square tiles.next ≡ true };
}

impl<'a> TouchedTiles<'a> {
    // All that touch the square.
    pub(crate) fn of(index: &'a DepIndex, square: Square) -> TouchedTiles<'a>
        ensures { result ≡ touched index.now.cap square }
    {
        TouchedTiles {
            index,
            square,
            next: Some(first_touched(square)),
        }
    }
}

impl<'a> Iterator for TouchedTiles<'a> {
    type Item = TileId;

    ghost next_gives = { YieldsFirst (λ tiles. tiles) };

    ghost remaining = { item_count (λ tiles. tiles) };

    fn next(&mut self) -> Option<TileId> {
        let tile = self.next?;
        self.next = next_touched(self.square, self.index.cap(), tile);
        Some(tile)
    }
}
