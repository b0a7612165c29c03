// The mesh of a tile.
ghost use Rattle.std.specs.Prelude.{◌≡◌};
ghost use Rattle.tile_mesh.specs.Mesh.{edge_of};

use crate::point::MeshPoint;
use std::marker::Model;
use terrain_base::{Indexes, Side};

/// The mesh of a tile: its vertices, its triangles by their vertices' numbers, and the numbers of the
/// vertices on each edge.
#[derive(Drop)]
pub struct TileMesh {
    pub(crate) points: Vec<MeshPoint>,
    pub(crate) triangles: Vec<Indexes>,
    pub(crate) west: Vec<u32>,
    pub(crate) south: Vec<u32>,
    pub(crate) east: Vec<u32>,
    pub(crate) north: Vec<u32>,
}

impl Model for TileMesh {
    ghost use Rattle.tile_mesh.specs.Mesh.{Mesh};

    ghost Value = { Mesh };

    ghost view = { λ m. record {
      points = m.points.items;
      triangles = m.triangles.items;
      west = m.west.items;
      south = m.south.items;
      east = m.east.items;
      north = m.north.items;
    } };
}

impl TileMesh {
    /// The vertices, in order of first use by the triangles.
    pub fn points(&self) -> &[MeshPoint]
        ensures { result.now ≡ self.now.points }
    {
        &self.points
    }

    /// The triangles, counter-clockwise.
    pub fn triangles(&self) -> &[Indexes]
        ensures { result.now ≡ self.now.triangles }
    {
        &self.triangles
    }

    /// The numbers of the vertices on an edge: of the west and the east edge by rising v, of the south and
    /// the north edge by rising u.
    pub fn edge(&self, side: Side) -> &[u32]
        ensures { result.now ≡ edge_of self.now side }
    {
        match side {
            Side::West => &self.west,
            Side::South => &self.south,
            Side::East => &self.east,
            Side::North => &self.north,
        }
    }
}
