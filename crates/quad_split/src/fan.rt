//! Whether the triangles of a node's sides follow the heights of the grid.

ghost use Rattle.std.specs.Prelude.{◌≡◌, ◌-◌, ◌≤◌};
ghost use Rattle.quad_split.specs.Node.{IsNode, level_of, column_of, row_of};
ghost use Rattle.quad_split.specs.Window.{IsSideOf, AreSidesOf, fan_at, middle_follows, middles_follow, side_follows, sides_follow};

use crate::node::Node;
use crate::triangle::{GridPoint, point_follows, triangle_follows};
use terrain_base::Grid;

/// The centre of a node, a side from `a` to `b`, and its midpoint.
#[derive(Clone, Copy, Debug, PartialEq, Eq)]
pub(crate) struct FanSide {
    pub(crate) centre: GridPoint,
    pub(crate) a: GridPoint,
    pub(crate) middle: GridPoint,
    pub(crate) b: GridPoint,
}

/// The four sides of a node.
#[derive(Clone, Copy, Debug, PartialEq, Eq)]
pub(crate) struct Fan {
    pub(crate) south: FanSide,
    pub(crate) east: FanSide,
    pub(crate) north: FanSide,
    pub(crate) west: FanSide,
}

/// Whether the triangle of the whole side and those of its halves follow the heights.
fn one_follows(grid: &Grid, tol: u16, side: FanSide) -> bool
    requires { IsSideOf grid.now side }
    ensures { result ≡ side_follows grid.now tol side }
{
    triangle_follows(grid, tol, side.centre, side.a, side.b)
        && triangle_follows(grid, tol, side.centre, side.a, side.middle)
        && triangle_follows(grid, tol, side.centre, side.middle, side.b)
}

/// Whether those of all four sides do.
pub(crate) fn fan_follows(grid: &Grid, tol: u16, fan: &Fan) -> bool
    requires { AreSidesOf grid.now fan.now }
    ensures { result ≡ sides_follow grid.now tol fan.now }
{
    one_follows(grid, tol, fan.south)
        && one_follows(grid, tol, fan.east)
        && one_follows(grid, tol, fan.north)
        && one_follows(grid, tol, fan.west)
}

/// Whether the triangle of the whole side follows the height at the side's midpoint.
fn middle_follows(grid: &Grid, tol: u16, side: FanSide) -> bool
    requires { IsSideOf grid.now side }
    ensures { result ≡ middle_follows grid.now tol side }
{
    point_follows(grid, tol, side.centre, side.a, side.b, side.middle)
}

/// Whether those of all four sides do. The triangles of a node of side 2 hold no other grid points but their
/// corners, where a plane has the grid's own height.
pub(crate) fn middles_follow(grid: &Grid, tol: u16, fan: &Fan) -> bool
    requires { AreSidesOf grid.now fan.now }
    ensures { result ≡ middles_follow grid.now tol fan.now }
{
    middle_follows(grid, tol, fan.south)
        && middle_follows(grid, tol, fan.east)
        && middle_follows(grid, tol, fan.north)
        && middle_follows(grid, tol, fan.west)
}

/// The sides of the node.
pub(crate) fn fan_of(node: &Node) -> Fan
    requires node { IsNode node.now }
    requires side { 2 ≤ node.now.side }
    ensures { result ≡ fan_at (level_of node.now.side - 1) (column_of node.now) (row_of node.now) }
{
    let half = node.side / 2;
    let (i, j, side) = (node.i, node.j, node.side);
    let centre = GridPoint {
        i: i + half,
        j: j + half,
    };
    let south_west = GridPoint { i, j };
    let south_east = GridPoint { i: i + side, j };
    let north_east = GridPoint {
        i: i + side,
        j: j + side,
    };
    let north_west = GridPoint { i, j: j + side };
    Fan {
        south: FanSide {
            centre,
            a: south_west,
            middle: GridPoint { i: i + half, j },
            b: south_east,
        },
        east: FanSide {
            centre,
            a: south_east,
            middle: GridPoint {
                i: i + side,
                j: j + half,
            },
            b: north_east,
        },
        north: FanSide {
            centre,
            a: north_east,
            middle: GridPoint {
                i: i + half,
                j: j + side,
            },
            b: north_west,
        },
        west: FanSide {
            centre,
            a: north_west,
            middle: GridPoint { i, j: j + half },
            b: south_west,
        },
    }
}
