// A mesh of codes.
ghost use Rattle.std.specs.Prelude.{◌≡◌, ◌+◌, ◌-◌, ◌^◌, ◌<◌, ◌≤◌, ◌++◌, ◌∷◌, [], length, All, OnOk, OnErr, slice_get, Some};
ghost use Rattle.mesh_codec.specs.Mesh.{IsVertex, IsTriangle, IsMesh, edge_of, empty_mesh, with_edge};

use crate::Codes;
use std::alloc::Global;
use std::marker::Model;
use terrain_base::{Indexes, NoMemory, Side};

/// The vertices, triangles and edge lists of a tile. Each vertex has codes from 0 to 32767, and each index
/// is below the number of vertices.
#[derive(Drop)]
pub struct CodeMesh {
    vertices: Vec<Codes>,
    triangles: Vec<Indexes>,
    west: Vec<u32>,
    south: Vec<u32>,
    east: Vec<u32>,
    north: Vec<u32>,
}

impl Model for CodeMesh {
    ghost use Rattle.mesh_codec.specs.Mesh.{Mesh, IsMesh};

    ghost Value = { Mesh };

    ghost view = { λ m. record {
      vertices = m.vertices.items;
      triangles = m.triangles.items;
      west = m.west.items;
      south = m.south.items;
      east = m.east.items;
      north = m.north.items;
    } };

    ghost invariant = { λ m. IsMesh (record {
      vertices = m.vertices.items;
      triangles = m.triangles.items;
      west = m.west.items;
      south = m.south.items;
      east = m.east.items;
      north = m.north.items;
    }) };
}

impl CodeMesh {
    /// A mesh without vertices.
    pub fn empty(alloc: Global) -> CodeMesh
        ensures { result ≡ empty_mesh }
    {
        CodeMesh {
            vertices: Vec::new(alloc),
            triangles: Vec::new(alloc),
            west: Vec::new(alloc),
            south: Vec::new(alloc),
            east: Vec::new(alloc),
            north: Vec::new(alloc),
        }
    }

    /// Adds a vertex. Its number is that of the vertices before.
    pub fn add_vertex(&mut self, u: u16, v: u16, height: u16) -> Result<(), NoMemory>
        requires u { u ≤ 32767 }
        requires v { v ≤ 32767 }
        requires height { height ≤ 32767 }
        requires room { length self.old.vertices < 2 ^ 32 - 1 }
        ensures ok { OnOk result (self.new
            ≡ record self.old { vertices = self.old.vertices ++ record { u = u; v = v; height = height } ∷ [] }) }
        ensures err { OnErr result (self.new ≡ self.old) }
    {
        self.vertices.push(Codes { u, v, height })?;
        Ok(())
    }

    /// Adds a triangle of vertices.
    pub fn add_triangle(&mut self, a: u32, b: u32, c: u32) -> Result<(), NoMemory>
        requires a { a < length self.old.vertices }
        requires b { b < length self.old.vertices }
        requires c { c < length self.old.vertices }
        requires room { length self.old.triangles < 2 ^ 32 - 1 }
        ensures ok { OnOk result (self.new
            ≡ record self.old { triangles = self.old.triangles ++ record { a = a; b = b; c = c } ∷ [] }) }
        ensures err { OnErr result (self.new ≡ self.old) }
    {
        self.triangles.push(Indexes { a, b, c })?;
        Ok(())
    }

    /// Adds a vertex at the end of an edge's list.
    pub fn add_edge(&mut self, edge: Side, vertex: u32) -> Result<(), NoMemory>
        requires vertex { vertex < length self.old.vertices }
        requires room { length (edge_of self.old edge) < 2 ^ 32 - 1 }
        ensures ok { OnOk result (self.new ≡ with_edge self.old edge vertex) }
        ensures err { OnErr result (self.new ≡ self.old) }
    {
        match edge {
            Side::West => self.west.push(vertex)?,
            Side::South => self.south.push(vertex)?,
            Side::East => self.east.push(vertex)?,
            Side::North => self.north.push(vertex)?,
        }
        Ok(())
    }

    /// How many vertices there are.
    pub fn vertices(&self) -> u32
        ensures count { result ≡ length self.now.vertices }
        ensures mesh { IsMesh self.now }
    {
        self.vertices.len() as u32
    }

    /// The codes of a vertex.
    pub fn vertex(&self, k: u32) -> Codes
        requires { k < length self.now.vertices }
        ensures vertex { slice_get self.now.vertices k ≡ Some result }
        ensures in_range { IsVertex result }
    {
        self.vertices[k as usize]
    }

    /// The codes of all vertices.
    pub(crate) fn codes(&self) -> &[Codes]
        ensures vertices { result.now ≡ self.now.vertices }
        ensures in_range { All IsVertex result.now }
        ensures few { length result.now < 2 ^ 32 }
    {
        &self.vertices
    }

    /// The triangles.
    pub fn triangles(&self) -> &[Indexes]
        ensures triangles { result.now ≡ self.now.triangles }
        ensures in_range { All (IsTriangle (length self.now.vertices)) result.now }
        ensures few { length result.now < 2 ^ 32 }
    {
        &self.triangles
    }

    /// The vertices of an edge's list.
    pub fn edge(&self, edge: Side) -> &[u32]
        ensures list { result.now ≡ edge_of self.now edge }
        ensures in_range { All (λ vertex. vertex < length self.now.vertices) result.now }
        ensures few { length result.now < 2 ^ 32 }
    {
        match edge {
            Side::West => &self.west,
            Side::South => &self.south,
            Side::East => &self.east,
            Side::North => &self.north,
        }
    }
}
