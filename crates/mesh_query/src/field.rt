//! A stored tile as a mesh in metres.
ghost use Rattle.std.specs.Prelude.{◌≡◌, ◌<◌, ◌^◌, length, map, All, IfOk, IfErr};
ghost use Rattle.mesh_codec.specs.Mesh.{IsTriangle};
ghost use Rattle.mesh_plane.specs.Plane.{IsOnTile};
ghost use Rattle.mesh_plane.specs.Cover.{Covers};
ghost use Rattle.mesh_query.specs.Field.{corner_at, tri_at, triangles_of};
ghost use Rattle.mesh_query.specs.Metres.{IsLow, IsLowTri};
ghost use Rattle.mesh_query.specs.Answer.{IsFieldOf, IsCause};

use crate::metres::corners_of;
use crate::refusal::QueryRefusal;
use mesh_check::{Verdict, audit};
use mesh_codec::TileView;
use mesh_plane::{Corner, Tri};
use std::alloc::Global;
use std::marker::Model;
use terrain_base::{Indexes, NoMemory};

/// The mesh of a stored tile in metres. It covers the tile once. It is seen as its vertices and its triangles by their
/// numbers.
#[derive(Drop)]
pub struct MeshField {
    corners: Vec<Corner>,
    indexes: Vec<Indexes>,
    // The triangles by their corners, so that a scan reads one list from its front to its end.
    tris: Vec<Tri>,
}

impl Model for MeshField {
    ghost use Rattle.std.specs.Prelude.{◌≡◌};
    ghost use Rattle.mesh_query.specs.Field.{MetreMesh, triangles_of, IsMetreMesh};

    ghost Value = { MetreMesh };

    ghost view = { λ f. record { corners = f.corners.items; indexes = f.indexes.items } };

    ghost invariant = { λ f. IsMetreMesh (record { corners = f.corners.items; indexes = f.indexes.items })
        × (f.tris.items ≡ triangles_of (record { corners = f.corners.items; indexes = f.indexes.items })) };
}

/// The triangles by their corners.
fn tris_of(alloc: Global, corners: &[Corner], indexes: &[Indexes]) -> Result<Vec<Tri>, NoMemory>
    requires { All (IsTriangle (length corners.now)) indexes.now }
    ensures { IfOk result (λ tris. tris.items ≡ map (tri_at corners.now) indexes.now) }
{
    let mut tris = Vec::new(alloc);
    for t in indexes {
        tris.push(Tri {
            a: corners[t.a as usize],
            b: corners[t.b as usize],
            c: corners[t.c as usize],
        })?;
    }
    Ok(tris)
}

impl MeshField {
    /// The mesh of a stored tile of any maker in metres, where each of its vertices has a whole number of metres and an
    /// audit of its mesh finds nothing.
    pub fn of(alloc: Global, view: &TileView<'_>) -> Result<MeshField, QueryRefusal>
        ensures ok { IfOk result (IsFieldOf view.now) }
        ensures err { IfErr result (IsCause view.now) }
    {
        let corners = corners_of(alloc, view)?;
        let mesh = view.to_mesh(alloc)?;
        match audit(alloc, &mesh)? {
            Verdict::Good => {
                let indexes = mesh.triangles().to_vec(alloc)?;
                let tris = tris_of(alloc, &corners, &indexes)?;
                Ok(MeshField {
                    corners,
                    indexes,
                    tris,
                })
            }
            Verdict::Found(finding) => Err(QueryRefusal::Unsound { finding }),
        }
    }

    /// How many vertices the mesh has.
    pub fn vertices(&self) -> u32
        ensures { result ≡ length self.now.corners }
    {
        self.corners.len() as u32
    }

    /// The vertex of a number, which is below `vertices`: its place on the tile, and its height in metres within 65535.
    pub fn corner(&self, k: u32) -> Corner
        requires { k < length self.now.corners }
        ensures corner { result ≡ corner_at self.now.corners k }
        ensures on_tile { IsOnTile result }
        ensures low { IsLow result }
    {
        self.corners[k as usize]
    }

    /// The triangles by the numbers of their vertices, counter-clockwise.
    pub fn triangles(&self) -> &[Indexes]
        ensures triangles { result.now ≡ self.now.indexes }
        ensures numbers { All (IsTriangle (length self.now.corners)) result.now }
        ensures covers { Covers (map (tri_at self.now.corners) result.now) }
    {
        &self.indexes
    }

    /// The triangles by their corners, in the same order. They cover the tile once.
    pub fn tris(&self) -> &[Tri]
        ensures tris { result.now ≡ triangles_of self.now }
        ensures covers { Covers result.now }
        ensures low { All IsLowTri result.now }
        ensures few { length result.now < 2 ^ 32 }
    {
        &self.tris
    }
}
