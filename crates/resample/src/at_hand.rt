// The height at a grid point whose cell the source has at hand.
ghost use Rattle.std.specs.Prelude.{◌≡◌, true, ◌*◌, ◌<◌, ℤ, Option, Some, IfSome};
ghost use Rattle.std.specs.FinSet as set;
ghost use Rattle.terrain_base.specs.Height.{IsHeight};
ghost use Rattle.terrain_base.specs.Level.{rows_of, columns_of};
ghost use Rattle.terrain_base.specs.Step.{Files};
ghost use Rattle.tms_tree.specs.Place.{IsPlace};
ghost use Rattle.dted_cell.specs.Elevation.{IsPost};
ghost use Rattle.cell_mosaic.specs.Cells.{Cells};
ghost use Rattle.cell_mosaic.specs.Value.{value_in_key};
ghost use Rattle.resample.specs.Block.{IsBlock};
ghost use Rattle.resample.specs.Height.{height_at};
ghost use Rattle.resample.specs.Line.{IsLine, LiesIn};

use crate::block::Block;
use crate::line::Line;
use cell_mosaic::{PostSource, blend};
use terrain_base::{CellKey, Post};
use tms_tree::Place;

/// The value at the place in the key's cell, by the two grid lines through it, where the source has the cell at hand.
fn value_at_hand<P: PostSource>(
    src: &P,
    key: CellKey,
    place: Place,
    east: &Line,
    north: &Line,
) -> Option<Post>
    requires place { IsPlace place }
    requires known { set.contains (P.shapes src.now) key ≡ true }
    requires east { LiesIn (180 * place.p) place.d key.square.lon (columns_of key.square key.level) east.now }
    requires north { LiesIn (180 * place.q) place.d key.square.lat (rows_of key.level) north.now }
    ensures value { IfSome result (λ post. (files : Option Files) (told : Cells) → P.cells src.now files ≡ Some told
        → post ≡ value_in_key told key place) }
    ensures height { IfSome result IsPost }
{
    let quad = src.round_at_hand(
        key,
        east.post,
        north.post,
        east.beyond == 0,
        north.beyond == 0,
    )?;
    let unit = place.d as u128;
    Some(blend(&quad, east.beyond as u128, unit, north.beyond as u128, unit))
}

/// The height at a place of a block by the two grid lines through it, where it lies on no whole degree, the lines are
/// turned to the block's finest cell, the source has this cell at hand, and the value in it is no void; and `None`
/// elsewhere. So most points of a tile are found without a fault or a change that a caller would have to look at.
pub(crate) fn height_at_hand<P: PostSource>(
    src: &P,
    place: Place,
    block: &Block,
    east: &Line,
    north: &Line,
) -> Option<i16>
    requires place { IsPlace place }
    requires block { IsBlock (P.shapes src.now) block.now }
    requires east { IsLine (180 * place.p) place.d east.now
        × (0 < east.now.rest → block.now.square.lon ≡ east.now.degrees) }
    requires north { IsLine (180 * place.q) place.d north.now
        × (0 < north.now.rest → block.now.square.lat ≡ north.now.degrees) }
    ensures value { IfSome result (λ metres. (fill : ℤ) (files : Option Files) (told : Cells)
        → P.cells src.now files ≡ Some told → metres ≡ height_at fill told place) }
    ensures height { IfSome result IsHeight }
{
    let level = block.finest?;
    if east.rest == 0 || north.rest == 0 {
        return None;
    }
    if east.posts != block.posts_across || north.posts != block.posts_along {
        return None;
    }
    let key = CellKey {
        square: block.square,
        level,
    };
    match value_at_hand(src, key, place, east, north)? {
        Post::Metres(metres) => Some(metres),
        Post::Void => None,
    }
}
