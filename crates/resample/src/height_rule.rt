// The height at a place.
ghost use Rattle.std.specs.Prelude.{◌≡◌, Some, IfOk};
ghost use Rattle.terrain_base.specs.Height.{IsHeight};
ghost use Rattle.tms_tree.specs.Degrees.{RectangleHolds, square_rectangle};
ghost use Rattle.tms_tree.specs.Place.{IsPlace, point_of};
ghost use Rattle.dted_cell.specs.Elevation.{IsPost};
ghost use Rattle.cell_mosaic.specs.Cells.{Cells};
ghost use Rattle.cell_mosaic.specs.Source.{GivesTold, Leaves};
ghost use Rattle.cell_mosaic.specs.Value.{value_at};
ghost use Rattle.resample.specs.Height.{height_at};

use cell_mosaic::{PostSource, SourceFault, candidates, cell_value};
use terrain_base::{Post, Square, Store};
use tms_tree::Place;

/// The value at the place in the square's cell, and a void where the square has none.
fn value_or_void<P: PostSource, S: Store>(
    src: &mut P,
    store: &mut S,
    square: Square,
    place: Place,
) -> Result<Post, SourceFault>
    requires place { IsPlace place }
    requires holds { RectangleHolds (square_rectangle square) (point_of place) }
    ensures value { GivesTold (P.cells src.old (S.holds store.old))
        (λ told. value_at told square place) result }
    ensures height { IfOk result IsPost }
    ensures leaves { Leaves P.cells P.shapes P.sure P.spoilt S.holds S.log S.faults
        src.old src.new store.old store.new result }
{
    match src.shape(square) {
        Some(_) => cell_value(src, store, square, place),
        None => Ok(Post::Void),
    }
}

/// The height at the place, in metres within -16000 to 16000: the first value that is not void in the cells of the
/// squares that hold the place, in the order of these, or the fill. A sure source always gives it. `Failed` is
/// answered only where the store's count of faults rose, and `Cell` only where the store's files, if they are told,
/// show it, and never where the cells are told. Changes nothing that the store holds and adds nothing to its log.
pub fn height<P: PostSource, S: Store>(
    src: &mut P,
    store: &mut S,
    fill: i16,
    place: Place,
) -> Result<i16, SourceFault>
    requires fill { IsHeight fill }
    requires place { IsPlace place }
    ensures value { GivesTold (P.cells src.old (S.holds store.old))
        (λ told. height_at fill told place) result }
    ensures height { IfOk result IsHeight }
    ensures leaves { Leaves P.cells P.shapes P.sure P.spoilt S.holds S.log S.faults
        src.old src.new store.old store.new result }
{
    let squares = candidates(place);
    for k in 0..squares.count() {
        match value_or_void(src, store, squares.at(k), place)? {
            Post::Metres(metres) => return Ok(metres),
            Post::Void => {}
        }
    }
    Ok(fill)
}
