// The grid points along the sides of a tile.
ghost use Rattle.std.specs.Prelude.{◌≡◌, ◌≤◌};
ghost use Rattle.tile_mesh.specs.Numbers.{IsOnGrid};
ghost use Rattle.tile_mesh.specs.Sides.{outer_at, inner_at};

use crate::point::GridPoint;
use terrain_base::Side;

/// The grid point of this index on the tile's edge.
pub(crate) fn outer_point(side: Side, index: u8) -> GridPoint
    requires { index ≤ 66 }
    ensures point { result ≡ outer_at side index }
    ensures on_grid { IsOnGrid result }
{
    match side {
        Side::West => GridPoint { i: 0, j: index },
        Side::South => GridPoint { i: index, j: 0 },
        Side::East => GridPoint { i: 66, j: index },
        Side::North => GridPoint { i: index, j: 66 },
    }
}

/// The grid point of this index on the line beside the edge.
pub(crate) fn inner_point(side: Side, index: u8) -> GridPoint
    requires { index ≤ 66 }
    ensures point { result ≡ inner_at side index }
    ensures on_grid { IsOnGrid result }
{
    match side {
        Side::West => GridPoint { i: 1, j: index },
        Side::South => GridPoint { i: index, j: 1 },
        Side::East => GridPoint { i: 65, j: index },
        Side::North => GridPoint { i: index, j: 65 },
    }
}
