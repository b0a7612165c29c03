// The value at a place in a cell, and in the cells of a square.
ghost use Rattle.std.specs.Prelude.{◌≡◌, true, ◌+◌, ◌-◌, ◌*◌, ◌/◌, ◌%◌, ◌^◌, ◌<◌, ◌≤◌, ◌==◌, IsSome, IfOk};
ghost use Rattle.std.specs.FinSet as set;
ghost use Rattle.terrain_base.specs.Level.{rows_of, columns_of};
ghost use Rattle.tms_tree.specs.Degrees.{RectangleHolds, square_rectangle};
ghost use Rattle.tms_tree.specs.Place.{IsPlace, point_of};
ghost use Rattle.dted_cell.specs.Elevation.{IsPost};
ghost use Rattle.cell_mosaic.specs.Cells.{finest_of, coarser_levels};
ghost use Rattle.cell_mosaic.specs.Source.{GivesTold, Leaves};
ghost use Rattle.cell_mosaic.specs.Value.{east_of, north_of, value_in_key, value_in_levels, value_at};

use crate::{PostSource, SourceFault, blend};
use terrain_base::{CellKey, Post, Square, Store, columns, rows};
use tms_tree::Place;

/// How far the place lies east of the square's western meridian, in units of a degree over `d`.
fn east(square: Square, place: Place) -> u64
    requires place { IsPlace place }
    requires holds { RectangleHolds (square_rectangle square) (point_of place) }
    ensures value { result ≡ east_of square place }
    ensures within { result ≤ place.d }
{
    (180 * place.p + (360 - square.lon() as u64) * place.d) % (360 * place.d)
}

/// How far the place lies north of the square's southern parallel, in units of a degree over `d`.
fn north(square: Square, place: Place) -> u64
    requires place { IsPlace place }
    requires holds { RectangleHolds (square_rectangle square) (point_of place) }
    ensures value { result ≡ north_of square place }
    ensures within { result ≤ place.d }
{
    180 * place.q - square.lat() as u64 * place.d
}

/// The post before a point that lies so many units of a degree over `d` from the first of the posts of a degree, and
/// how far beyond it the point lies, in steps over `d`.
fn step(units: u64, posts: u16, d: u64) -> (u16, u64)
    requires posts { (2 ≤ posts) × (posts ≤ 3601) }
    requires d { (0 < d) × (d ≤ 2 ^ 29) }
    requires units { units ≤ d }
    ensures post { result.0 ≡ units * (posts - 1) / d }
    ensures beyond { result.1 ≡ units * (posts - 1) % d }
    ensures small { result.1 < d }
    ensures there { result.0 < posts }
    ensures next { 0 < result.1 → result.0 + 1 < posts }
{
    let steps = units * (posts as u64 - 1);
    ((steps / d) as u16, steps % d)
}

/// The value at the place in the key's cell, by the posts round it.
fn value_in_cell<P: PostSource, S: Store>(
    src: &mut P,
    store: &mut S,
    key: CellKey,
    place: Place,
) -> Result<Post, SourceFault>
    requires place { IsPlace place }
    requires known { set.contains (P.shapes src.old) key ≡ true }
    requires holds { RectangleHolds (square_rectangle key.square) (point_of place) }
    ensures value { GivesTold (P.cells src.old (S.holds store.old))
        (λ told. value_in_key told key place) result }
    ensures height { IfOk result IsPost }
    ensures leaves { Leaves P.cells P.shapes P.sure P.spoilt S.holds S.log S.faults
        src.old src.new store.old store.new result }
{
    let (col, east) = step(
        east(key.square, place),
        columns(key.square, key.level),
        place.d,
    );
    let (row, north) = step(north(key.square, place), rows(key.level), place.d);
    let quad = src.posts_round(store, key, col, row, east == 0, north == 0)?;
    let unit = place.d as u128;
    Ok(blend(&quad, east as u128, unit, north as u128, unit))
}

/// The value at the place in the cells of the key's square that are coarser than the key's: the first that is not
/// void, level 1 before level 0, and void where there is none. The square's closed rectangle holds the place. Answers
/// and changes are those of `PostSource::post`.
pub fn coarser_value<P: PostSource, S: Store>(
    src: &mut P,
    store: &mut S,
    key: CellKey,
    place: Place,
) -> Result<Post, SourceFault>
    requires place { IsPlace place }
    requires holds { RectangleHolds (square_rectangle key.square) (point_of place) }
    ensures value { GivesTold (P.cells src.old (S.holds store.old))
        (λ told. value_in_levels told key.square place (coarser_levels key.level)) result }
    ensures height { IfOk result IsPost }
    ensures leaves { Leaves P.cells P.shapes P.sure P.spoilt S.holds S.log S.faults
        src.old src.new store.old store.new result }
{
    let square = key.square;
    let Some(second) = src.coarser(key) else {
        return Ok(Post::Void);
    };
    let middle = CellKey {
        square,
        level: second,
    };
    let below = value_in_cell(src, store, middle, place)?;
    if let Post::Metres(_) = below {
        return Ok(below);
    }
    let Some(third) = src.coarser(middle) else {
        return Ok(below);
    };
    let coarsest = CellKey {
        square,
        level: third,
    };
    value_in_cell(src, store, coarsest, place)
}

/// The value at the place in the square: the first that is not void in its cells, the finest first. It is void, or
/// metres within -16000 to 16000. The square has a cell and its closed rectangle holds the place. Faults have the
/// causes that a post's have.
pub fn cell_value<P: PostSource, S: Store>(
    src: &mut P,
    store: &mut S,
    square: Square,
    place: Place,
) -> Result<Post, SourceFault>
    requires place { IsPlace place }
    requires known { IsSome (finest_of (P.shapes src.old) square) }
    requires holds { RectangleHolds (square_rectangle square) (point_of place) }
    ensures value { GivesTold (P.cells src.old (S.holds store.old))
        (λ told. value_at told square place) result }
    ensures height { IfOk result IsPost }
    ensures leaves { Leaves P.cells P.shapes P.sure P.spoilt S.holds S.log S.faults
        src.old src.new store.old store.new result }
{
    let Some(level) = src.shape(square) else {
        unreachable!()
    };
    let finest = CellKey { square, level };
    let value = value_in_cell(src, store, finest, place)?;
    if let Post::Metres(_) = value {
        return Ok(value);
    }
    coarser_value(src, store, finest, place)
}
