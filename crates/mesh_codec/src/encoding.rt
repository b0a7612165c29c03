// A header and a mesh as the bytes of a tile.
ghost use Rattle.std.specs.Prelude.{
  ◌≡◌,
  ◌≢◌,
  ◌+◌,
  ◌-◌,
  ◌^◌,
  ◌<◌,
  ◌≤◌,
  ◌++◌,
  ◌∷◌,
  [],
  length,
  All,
  map,
  OnOk,
  IfOk,
};
ghost use Rattle.byteorder.specs.Endian.{little_bytes};
ghost use Rattle.mesh_codec.specs.Mesh.{IsVertex, IsTriangle, IsEdge, IsMesh, IsEncodable, coordinate};
ghost use Rattle.terrain_base.specs.FirstUse.{corners};
ghost use Rattle.mesh_codec.specs.Tile.{Decodes};
ghost use Rattle.mesh_codec.specs.Text.{
  point_text,
  IsHeader,
  header_text,
  zigzag,
  array_text,
  arrays_text,
  index_width,
  padding_text,
  mark_after,
  AreWithinMark,
  indexes_text,
  triangles_text,
  edge_text,
  edges_text,
  tile_text,
};

use crate::layout::padding;
use crate::number::{put_double, put_long, put_short};
use crate::{Array, CodeMesh, Codes, Header};
use std::alloc::Global;
use terrain_base::{Indexes, NoMemory, Side};

/// Adds a point.
fn put_point(out: &mut Vec<u8>, point: &[u64]) -> Result<(), NoMemory>
    ensures text { OnOk result (out.new.items ≡ out.old.items ++ point_text point.now) }
    ensures widths { OnOk result (All (λ coordinate. coordinate < 2 ^ 64) point.now) }
{
    for coordinate in point {
        put_double(out, *coordinate)?;
    }
    Ok(())
}

/// Adds the header.
#[tactic(auto, unfolding(crate::specs::Text::header_text))]
fn put_header(out: &mut Vec<u8>, header: &Header) -> Result<(), NoMemory>
    ensures text { OnOk result (out.new.items ≡ out.old.items ++ header_text header.now) }
    ensures widths { OnOk result (IsHeader header.now) }
{
    put_point(out, &header.centre)?;
    put_long(out, header.least)?;
    put_long(out, header.greatest)?;
    put_point(out, &header.sphere_centre)?;
    put_double(out, header.radius)?;
    put_point(out, &header.horizon)
}

/// A vertex's code in an array.
fn coordinate_of(codes: &Codes, array: Array) -> u16
    ensures { result ≡ coordinate array codes.now }
{
    match array {
        Array::U => codes.u,
        Array::V => codes.v,
        Array::Height => codes.height,
    }
}

/// The word of the difference between a code and the one before.
fn word_of(before: u16, code: u16) -> u16
    requires before { before ≤ 32767 }
    requires code { code ≤ 32767 }
    ensures { result ≡ zigzag before code }
{
    if before <= code {
        2 * (code - before)
    } else {
        2 * (before - code) - 1
    }
}

/// Adds an array.
#[tactic(auto, using(crate::proofs::Texts::array_next, crate::proofs::Texts::coordinate_small))]
fn put_array(out: &mut Vec<u8>, vertices: &[Codes], array: Array) -> Result<(), NoMemory>
    requires { All IsVertex vertices.now }
    ensures { OnOk result (out.new.items ≡ out.old.items ++ array_text 0 (map (coordinate array) vertices.now)) }
{
    let mut before = 0;
    for codes in vertices {
        let code = coordinate_of(codes, array);
        put_short(out, word_of(before, code))?;
        before = code;
    }
    Ok(())
}

/// Adds a code of the index width.
#[tactic(auto, unfolding(crate::specs::Text::index_width))]
fn put_code(out: &mut Vec<u8>, vertices: u32, code: u32) -> Result<(), NoMemory>
    requires fits { code ≤ vertices }
    requires reaches_back { vertices ≢ 65536 }
    ensures { OnOk result (out.new.items ≡ out.old.items ++ little_bytes (index_width vertices) code) }
{
    if vertices > 65536 {
        put_long(out, code)
    } else {
        put_short(out, code as u16)
    }
}

/// Adds an index as the mark less it, and gives the mark behind it.
fn put_index(out: &mut Vec<u8>, vertices: u32, mark: u32, index: u32) -> Result<u32, NoMemory>
    requires within { index ≤ mark }
    requires vertex { index < vertices }
    requires mark { mark ≤ vertices }
    requires reaches_back { vertices ≢ 65536 }
    ensures code { OnOk result (out.new.items ≡ out.old.items ++ little_bytes (index_width vertices) (mark - index)) }
    ensures mark { IfOk result (λ next. next ≡ mark_after mark index) }
    ensures few { IfOk result (λ next. next ≤ vertices) }
{
    put_code(out, vertices, mark - index)?;
    Ok(if index == mark { mark + 1 } else { mark })
}

/// Adds the indexes of triangles.
#[tactic(auto, using(crate::proofs::Texts::corners_next))]
fn put_triangles(out: &mut Vec<u8>, triangles: &[Indexes], vertices: u32) -> Result<(), NoMemory>
    requires vertices { All (IsTriangle vertices) triangles.now }
    requires in_order { AreWithinMark 0 (corners triangles.now) }
    requires reaches_back { vertices ≢ 65536 }
    ensures { OnOk result (out.new.items
        ≡ out.old.items ++ indexes_text (index_width vertices) 0 (corners triangles.now)) }
{
    let mut mark = 0;
    for triangle in triangles {
        mark = put_index(out, vertices, mark, triangle.a)?;
        mark = put_index(out, vertices, mark, triangle.b)?;
        mark = put_index(out, vertices, mark, triangle.c)?;
    }
    Ok(())
}

/// Adds a list of vertices along an edge.
fn put_edge(out: &mut Vec<u8>, list: &[u32], vertices: u32) -> Result<(), NoMemory>
    requires vertices { All (λ vertex. vertex < vertices) list.now }
    requires few { length list.now < 2 ^ 32 }
    requires reaches_back { vertices ≢ 65536 }
    ensures { OnOk result (out.new.items ≡ out.old.items ++ edge_text (index_width vertices) list.now) }
{
    put_long(out, list.len() as u32)?;
    for vertex in list {
        put_code(out, vertices, *vertex)?;
    }
    Ok(())
}

/// Adds the vertices of a mesh.
fn put_vertices(out: &mut Vec<u8>, mesh: &CodeMesh) -> Result<(), NoMemory>
    ensures { OnOk result (out.new.items
        ≡ out.old.items ++ (little_bytes 4 (length mesh.now.vertices)
        ++ (arrays_text mesh.now ++ padding_text (length mesh.now.vertices)))) }
{
    let vertices = mesh.codes();
    put_long(out, mesh.vertices())?;
    put_array(out, vertices, Array::U)?;
    put_array(out, vertices, Array::V)?;
    put_array(out, vertices, Array::Height)?;
    out.extend_from_slice(padding(mesh.vertices()))?;
    Ok(())
}

/// Adds the triangles and the edge lists of a mesh.
fn put_indexes(out: &mut Vec<u8>, mesh: &CodeMesh) -> Result<(), NoMemory>
    requires in_order { AreWithinMark 0 (corners mesh.now.triangles) }
    requires reaches_back { length mesh.now.vertices ≢ 65536 }
    ensures { OnOk result (out.new.items
        ≡ out.old.items ++ (triangles_text (index_width (length mesh.now.vertices)) mesh.now
        ++ edges_text (index_width (length mesh.now.vertices)) mesh.now)) }
{
    let vertices = mesh.vertices();
    let triangles = mesh.triangles();
    put_long(out, triangles.len() as u32)?;
    put_triangles(out, triangles, vertices)?;
    put_edge(out, mesh.edge(Side::West), vertices)?;
    put_edge(out, mesh.edge(Side::South), vertices)?;
    put_edge(out, mesh.edge(Side::East), vertices)?;
    put_edge(out, mesh.edge(Side::North), vertices)
}

/// Adds a header and a mesh.
#[tactic(auto, unfolding(crate::specs::Text::tile_text))]
fn put_tile(out: &mut Vec<u8>, header: &Header, mesh: &CodeMesh) -> Result<(), NoMemory>
    requires { IsEncodable mesh.now }
    ensures text { OnOk result (out.new.items ≡ out.old.items ++ tile_text header.now mesh.now) }
    ensures widths { OnOk result (IsHeader header.now) }
{
    put_header(out, header)?;
    put_vertices(out, mesh)?;
    put_indexes(out, mesh)
}

/// The bytes of a tile with this header and this mesh, with padding of zeros and without an extension. The
/// vertices are numbered by first use in the triangles, each is used, and there are not exactly 65536.
pub fn encode(alloc: Global, header: &Header, mesh: &CodeMesh) -> Result<Vec<u8>, NoMemory>
    requires { IsEncodable mesh.now }
    ensures text { IfOk result (λ bytes. bytes.items ≡ tile_text header.now mesh.now) }
    ensures decodes { IfOk result (λ bytes. Decodes bytes.items header.now mesh.now []) }
{
    let mut out = Vec::new(alloc);
    put_tile(&mut out, header, mesh)?;
    let _vertices = mesh.vertices();
    crate::laws::text_decodes();
    Ok(out)
}
