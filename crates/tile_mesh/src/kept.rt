// The kept points of an edge.
ghost use Rattle.std.specs.Prelude.{◌≡◌, ◌≤◌, IfOk};
ghost use Rattle.std.specs.List.{AllByRecursion};
ghost use Rattle.tile_mesh.specs.Kept.{RisesTo66};
ghost use Rattle.tile_mesh.specs.Mesh.{edge_heights, kept_on};

use crate::side::outer_point;
use edge_decimate::{KeptLine, kept};
use std::alloc::Global;
use terrain_base::{Grid, NoMemory, Side};

/// The heights along an edge.
fn heights_along(grid: &Grid, side: Side) -> [i16; 67]
    ensures { result ≡ edge_heights grid.now side }
{
    let mut heights = [0; 67];
    for index in 0..67u8 {
        let point = outer_point(side, index);
        heights[index as usize] = grid.get(point.i, point.j);
    }
    heights
}

/// The kept points, as a list.
fn listed(alloc: Global, kept: &KeptLine) -> Result<Vec<u8>, NoMemory>
    requires { RisesTo66 kept.now }
    ensures indexes { IfOk result (λ indexes. indexes.items ≡ kept.now) }
    ensures within { IfOk result (λ indexes. AllByRecursion (λ x. x ≤ 66) indexes.items) }
{
    let mut indexes = Vec::new(alloc);
    let mut index = 0;
    indexes.push(index)?;
    while index < 66 {
        index = kept.after(index);
        indexes.push(index)?;
    }
    Ok(indexes)
}

/// The indexes of the kept points of an edge.
pub(crate) fn kept_indexes(
    alloc: Global,
    grid: &Grid,
    tol: u16,
    side: Side,
) -> Result<Vec<u8>, NoMemory>
    ensures indexes { IfOk result (λ indexes. indexes.items ≡ kept_on grid.now tol side) }
    ensures within { IfOk result (λ indexes. AllByRecursion (λ x. x ≤ 66) indexes.items) }
{
    let line = kept(&heights_along(grid, side), tol);
    listed(alloc, &line)
}
