// The height at a place that lies inside one square.
ghost use Rattle.std.specs.Prelude.{◌≡◌, true, ◌*◌, ◌<◌, IfOk};
ghost use Rattle.std.specs.FinSet as set;
ghost use Rattle.terrain_base.specs.Level.{rows_of, columns_of};
ghost use Rattle.terrain_base.specs.Height.{IsHeight};
ghost use Rattle.tms_tree.specs.Place.{IsPlace};
ghost use Rattle.dted_cell.specs.Elevation.{IsPost};
ghost use Rattle.cell_mosaic.specs.Cells.{finest_of};
ghost use Rattle.cell_mosaic.specs.Source.{GivesTold, Leaves};
ghost use Rattle.cell_mosaic.specs.Value.{value_in_key};
ghost use Rattle.resample.specs.Height.{height_at};
ghost use Rattle.resample.specs.Line.{IsLine, LiesIn};

use crate::block::Block;
use crate::line::{Line, turn_to};
use cell_mosaic::{PostSource, SourceFault, blend, coarser_value};
use terrain_base::{CellKey, Post, Store, columns, rows};
use tms_tree::Place;

/// The value at the place in the key's cell, by the two grid lines through it.
fn value_between<P: PostSource, S: Store>(
    src: &mut P,
    store: &mut S,
    key: CellKey,
    place: Place,
    east: &Line,
    north: &Line,
) -> Result<Post, SourceFault>
    requires place { IsPlace place }
    requires known { set.contains (P.shapes src.old) key ≡ true }
    requires east { LiesIn (180 * place.p) place.d key.square.lon (columns_of key.square key.level) east.now }
    requires north { LiesIn (180 * place.q) place.d key.square.lat (rows_of key.level) north.now }
    ensures value { GivesTold (P.cells src.old (S.holds store.old))
        (λ told. value_in_key told key place) result }
    ensures height { IfOk result IsPost }
    ensures leaves { Leaves P.cells P.shapes P.sure P.spoilt S.holds S.log S.faults
        src.old src.new store.old store.new result }
{
    let unit = place.d as u128;
    let quad = src.posts_round(
        store,
        key,
        east.post,
        north.post,
        east.beyond == 0,
        north.beyond == 0,
    )?;
    Ok(blend(&quad, east.beyond as u128, unit, north.beyond as u128, unit))
}

/// The same by lines that may be turned to another cell.
fn value_by_lines<P: PostSource, S: Store>(
    src: &mut P,
    store: &mut S,
    key: CellKey,
    place: Place,
    east: &Line,
    north: &Line,
) -> Result<Post, SourceFault>
    requires place { IsPlace place }
    requires known { set.contains (P.shapes src.old) key ≡ true }
    requires east { IsLine (180 * place.p) place.d east.now × (key.square.lon ≡ east.now.degrees) }
    requires north { IsLine (180 * place.q) place.d north.now × (key.square.lat ≡ north.now.degrees) }
    ensures value { GivesTold (P.cells src.old (S.holds store.old))
        (λ told. value_in_key told key place) result }
    ensures height { IfOk result IsPost }
    ensures leaves { Leaves P.cells P.shapes P.sure P.spoilt S.holds S.log S.faults
        src.old src.new store.old store.new result }
{
    let across = columns(key.square, key.level);
    let along = rows(key.level);
    // In a block they are turned already, and need not be copied.
    if east.posts == across && north.posts == along {
        return value_between(src, store, key, place, east, north);
    }
    let mut meridian = *east;
    turn_to(&mut meridian, across, place.d);
    let mut parallel = *north;
    turn_to(&mut parallel, along, place.d);
    value_between(src, store, key, place, &meridian, &parallel)
}

/// The height at a place of a block that lies on no whole degree, by the two grid lines through it: the value in the
/// finest cell, where that is a void the value in the coarser ones, and else the fill.
pub(crate) fn inside<P: PostSource, S: Store>(
    src: &mut P,
    store: &mut S,
    fill: i16,
    place: Place,
    block: &Block,
    east: &Line,
    north: &Line,
) -> Result<i16, SourceFault>
    requires fill { IsHeight fill }
    requires place { IsPlace place }
    requires finest { block.now.finest ≡ finest_of (P.shapes src.old) block.now.square }
    requires east { IsLine (180 * place.p) place.d east.now × (0 < east.now.rest)
        × (block.now.square.lon ≡ east.now.degrees) }
    requires north { IsLine (180 * place.q) place.d north.now × (0 < north.now.rest)
        × (block.now.square.lat ≡ north.now.degrees) }
    ensures value { GivesTold (P.cells src.old (S.holds store.old))
        (λ told. height_at fill told place) result }
    ensures height { IfOk result IsHeight }
    ensures leaves { Leaves P.cells P.shapes P.sure P.spoilt S.holds S.log S.faults
        src.old src.new store.old store.new result }
{
    let Some(level) = block.finest else {
        return Ok(fill);
    };
    let key = CellKey {
        square: block.square,
        level,
    };
    if let Post::Metres(metres) = value_by_lines(src, store, key, place, east, north)? {
        return Ok(metres);
    }
    match coarser_value(src, store, key, place)? {
        Post::Metres(metres) => Ok(metres),
        Post::Void => Ok(fill),
    }
}
