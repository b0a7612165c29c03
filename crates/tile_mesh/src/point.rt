// Grid points, and the vertices on them.
ghost use Rattle.std.specs.Prelude.{◌≡◌, ◌<◌};
ghost use Rattle.terrain_base.specs.Grid.{spot};
ghost use Rattle.tile_mesh.specs.Numbers.{IsOnGrid};

/// A grid point: its column from the west and its row from the south.
#[derive(Clone, Copy, Debug, PartialEq, Eq)]
pub(crate) struct GridPoint {
    pub(crate) i: u8,
    pub(crate) j: u8,
}

impl GridPoint {
    /// Its place among the 4489 grid points of a tile, row by row from the south, each row from the west.
    pub(crate) fn spot(self) -> usize
        requires { IsOnGrid self }
        ensures place { result ≡ spot self.i self.j }
        ensures within { result < 4489 }
    {
        67 * self.j as usize + self.i as usize
    }
}

/// A vertex: its column from the west and its row from the south, each from 0 to 66, and its height in
/// metres.
#[derive(Clone, Copy, Debug, PartialEq, Eq)]
pub struct MeshPoint {
    pub i: u8,
    pub j: u8,
    pub metres: i16,
}
