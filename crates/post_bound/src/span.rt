// The bound below level 8.
ghost use Rattle.std.specs.Prelude.{◌≡◌, ◌<◌, ◌≤◌, ℤ, pos, ◌-ℤ◌, ◌≤ℤ◌, length};
ghost use Rattle.tms_tree.specs.Touch.{touches_of};
ghost use Rattle.post_bound.specs.Span.{least_metres, most_metres, or_zero, span_of_extremes, span_of_cell, span_bound_of};

use terrain_base::{Extremes, Summary, TileId};
use tile_mesh::{MeshPoint, TileMesh};
use tms_tree::touches;

/// The least height of vertices in metres; 16000 where there are none.
pub fn lowest(points: &[MeshPoint]) -> i16
    ensures { result ≡ least_metres points.now }
{
    let mut least = 16000;
    for point in points {
        least = least.min(point.metres);
    }
    least
}

/// The greatest height of vertices in metres; -16000 where there are none.
pub fn highest(points: &[MeshPoint]) -> i16
    ensures { result ≡ most_metres points.now }
{
    let mut most = -16000;
    for point in points {
        most = most.max(point.metres);
    }
    most
}

// How far one height is above another, 0 where it is not.
fn above(high: i16, low: i16) -> u32
    ensures { result ≡ or_zero (high -ℤ low) }
{
    (i32::from(high) - i32::from(low)).max(0) as u32
}

// The greatest difference of a vertex and the extremes of a cell that touches the tile.
fn one_span(tile: TileId, least: i16, most: i16, cell: Summary) -> u32
    ensures { result ≡ span_of_cell tile least most cell }
{
    if !touches(tile, cell.square) {
        return 0;
    }
    match cell.extremes {
        None => 0,
        Some(extremes) => above(extremes.greatest, least).max(above(most, extremes.least)),
    }
}

/// The error bound of a tile below level 8, in metres: the greatest of 0 and, over the cells that touch the tile and
/// have extremes, the greatest post less the least vertex and the greatest vertex less the least post. The summaries
/// may stand in any order.
pub fn span_bound(summaries: &[Summary], tile: TileId, mesh: &TileMesh) -> u32
    requires below { tile.z < 8 }
    ensures { result ≡ span_bound_of summaries.now tile mesh.now }
{
    let least = lowest(mesh.points());
    let most = highest(mesh.points());
    let mut bound = 0;
    for cell in summaries {
        bound = bound.max(one_span(tile, least, most, *cell));
    }
    bound
}
