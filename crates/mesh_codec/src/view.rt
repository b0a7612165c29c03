// A tile, read where its bytes lie.
ghost use Rattle.std.specs.Prelude.{◌≡◌, ◌^◌, ◌<◌, ◌↔◌, All, length, IfOk, IsOk, OnOk};
ghost use Rattle.std.specs.Result.{result_err};
ghost use Rattle.mesh_codec.specs.Mesh.{IsVertex, IsTriangle, Mesh};
ghost use Rattle.mesh_codec.specs.Layout.{vertices_in, triangles_in};
ghost use Rattle.mesh_codec.specs.Refusal.{tile_refusal_of};
ghost use Rattle.mesh_codec.specs.Tile.{
  Decodes,
  IsSomeTile,
  header_in,
  vertex_list,
  triangle_list,
  edge_list,
  extension_list,
  mesh_in,
};

use crate::building::{add_list, add_triangles, add_vertices};
use crate::edge_indexes::EdgeIndexes;
use crate::extensions::Extensions;
use crate::header::header_at;
use crate::layout::{triangle_number, vertex_number};
use crate::tile::read_tile;
use crate::triangles::Triangles;
use crate::vertex_codes::VertexCodes;
use crate::{CodeMesh, Header, TileRefusal};
use std::alloc::Global;
use std::marker::Model;
use terrain_base::{NoMemory, Side};

/// A tile, read where its bytes lie. It is seen as its bytes.
#[derive(Drop)]
pub struct TileView<'a> {
    bytes: &'a [u8],
}

impl<'a> Model for TileView<'a> {
    ghost use Rattle.std.specs.Prelude.{List, ℕ};
    ghost use Rattle.mesh_codec.specs.Good.{IsTile};

    ghost Value = { List ℕ };

    ghost view = { λ v. v.bytes.now };

    ghost invariant = { λ v. IsTile v.bytes.now };
}

impl<'a> TileView<'a> {
    /// Reads a tile. Nothing is copied, and the bytes are passed over once.
    pub fn read(bytes: &'a [u8]) -> Result<TileView<'a>, TileRefusal>
        ensures ok { IsOk result ↔ IsSomeTile bytes.now }
        ensures view { IfOk result (λ view. view ≡ bytes.now) }
        ensures tile { OnOk result (Decodes bytes.now (header_in bytes.now) (mesh_in bytes.now)
            (extension_list bytes.now)) }
        // It is the first whose condition holds, and there is none where the bytes are a tile.
        ensures refusal { result_err result ≡ tile_refusal_of bytes.now }
    {
        match read_tile(bytes) {
            Ok(()) => Ok(TileView { bytes }),
            Err(refusal) => Err(refusal),
        }
    }

    /// The header.
    pub fn header(&self) -> Header
        ensures { result ≡ header_in self.now }
    {
        header_at(self.bytes)
    }

    /// How many vertices there are.
    pub fn vertices(&self) -> u32
        ensures { result ≡ vertices_in self.now }
    {
        vertex_number(self.bytes)
    }

    /// How many triangles there are.
    pub fn triangle_count(&self) -> u32
        ensures { result ≡ triangles_in self.now }
    {
        triangle_number(self.bytes)
    }

    /// The codes of the vertices, by number.
    pub fn vertex_codes(&self) -> VertexCodes<'a>
        ensures vertices { result ≡ vertex_list self.now }
        ensures in_range { All IsVertex result }
        ensures few { length result < 2 ^ 32 }
    {
        VertexCodes::of(self.bytes)
    }

    /// The triangles, by their vertices.
    pub fn triangles(&self) -> Triangles<'a>
        ensures triangles { result ≡ triangle_list self.now }
        ensures in_range { All (IsTriangle (vertices_in self.now)) result }
        ensures few { length result < 2 ^ 32 }
    {
        Triangles::of(self.bytes)
    }

    /// The vertices along an edge.
    pub fn edge(&self, edge: Side) -> EdgeIndexes<'a>
        ensures list { result ≡ edge_list self.now edge }
        ensures in_range { All (λ vertex. vertex < vertices_in self.now) result }
        ensures few { length result < 2 ^ 32 }
    {
        EdgeIndexes::of(self.bytes, edge)
    }

    /// The extensions.
    pub fn extensions(&self) -> Extensions<'a>
        ensures list { result ≡ extension_list self.now }
        ensures few { length result < 2 ^ 63 }
    {
        Extensions::of(self.bytes)
    }

    /// The mesh.
    pub fn to_mesh(&self, alloc: Global) -> Result<CodeMesh, NoMemory>
        ensures { IfOk result (λ mesh. mesh ≡ mesh_in self.now) }
    {
        let mut mesh = CodeMesh::empty(alloc);
        add_vertices(&mut mesh, self.vertex_codes())?;
        add_triangles(&mut mesh, self.triangles())?;
        add_list(&mut mesh, Side::West, self.edge(Side::West))?;
        add_list(&mut mesh, Side::South, self.edge(Side::South))?;
        add_list(&mut mesh, Side::East, self.edge(Side::East))?;
        add_list(&mut mesh, Side::North, self.edge(Side::North))?;
        Ok(mesh)
    }
}
