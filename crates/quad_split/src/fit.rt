//! Whether a node fits.

ghost use Rattle.std.specs.Prelude.{◌≡◌, ◌↔◌, ℕ, suc, ◌≤◌, IsTrue};
ghost use Rattle.quad_split.specs.Node.{IsNode, level_of, column_of, row_of};
ghost use Rattle.quad_split.specs.Fits.{Fits, fits_at};

use crate::fan::{fan_follows, fan_of, middles_follow};
use crate::node::Node;
use terrain_base::Grid;

/// Whether the node fits: for each of its four sides, each grid point in the closed triangle of the node's
/// centre and the side's two ends, and each in the two closed triangles of the centre, an end and the side's
/// midpoint, has a height within `tol` metres of that triangle's plane.
///
/// The node's side is at least 2. Triangles lie in the tile's units.
pub fn fits(grid: &Grid, node: &Node, tol: u16) -> bool
    requires node { IsNode node.now }
    requires side { 2 ≤ node.now.side }
    ensures value { result ≡
        fits_at grid.now tol (level_of node.now.side) (column_of node.now) (row_of node.now) }
    ensures meaning { (k : ℕ) → level_of node.now.side ≡ suc k →
        IsTrue result ↔ Fits grid.now tol k (column_of node.now) (row_of node.now) }
{
    let fan = fan_of(node);
    if node.side == 2 {
        return middles_follow(grid, tol, &fan);
    }
    fan_follows(grid, tol, &fan)
}
