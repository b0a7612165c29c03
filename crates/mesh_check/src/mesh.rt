// The triangles and the levels of a mesh of codes.

ghost use Rattle.std.specs.Prelude.{◌≡◌, ◌<◌, ◌∷◌, length, map, IfOk};
ghost use Rattle.std.specs.List.Sorted.{IsStrictlyIncreasing};
ghost use Rattle.mesh_codec.specs.Mesh.{IsTriangle};
ghost use Rattle.mesh_check.specs.CodeMesh.{corner_at, tri_of as tri_in, triangles_of as triangles_in, AreLevels};

use mesh_codec::CodeMesh;
use mesh_plane::{Corner, Tri};
use std::alloc::{AllocError, Global};
use terrain_base::Indexes;

/// The corner of a vertex. Its height is the code.
fn corner_of(mesh: &CodeMesh, vertex: u32) -> Corner
    requires { vertex < length mesh.now.vertices }
    ensures { result ≡ corner_at mesh.now vertex }
{
    let codes = mesh.vertex(vertex);
    Corner {
        u: i64::from(codes.u),
        v: i64::from(codes.v),
        h: i32::from(codes.height),
    }
}

/// A triangle by its corners.
fn tri_of(mesh: &CodeMesh, triangle: &Indexes) -> Tri
    requires { IsTriangle (length mesh.now.vertices) triangle.now }
    ensures { result ≡ tri_in mesh.now triangle.now }
{
    Tri {
        a: corner_of(mesh, triangle.a),
        b: corner_of(mesh, triangle.b),
        c: corner_of(mesh, triangle.c),
    }
}

/// The triangles of a mesh by their corners, in order.
pub(crate) fn triangles_of(alloc: Global, mesh: &CodeMesh) -> Result<Vec<Tri>, AllocError>
    ensures { IfOk result (λ triangles. triangles.items ≡ triangles_in mesh.now) }
{
    let indexes = mesh.triangles();
    let mut triangles = Vec::new(alloc);
    for triangle in indexes {
        triangles.push(tri_of(mesh, triangle))?;
    }
    Ok(triangles)
}

/// The edges of the tile and the `v` of each vertex.
fn all_levels(alloc: Global, mesh: &CodeMesh) -> Result<Vec<u16>, AllocError>
    ensures { IfOk result (λ levels. levels.items ≡ 0 ∷ (32767 ∷ map (λ codes. codes.v) mesh.now.vertices)) }
{
    let mut levels = vec![in alloc; 0u16, 32767]?;
    for vertex in 0..mesh.vertices() {
        levels.push(mesh.vertex(vertex).v)?;
    }
    Ok(levels)
}

/// The levels of a mesh, ascending, each once.
pub(crate) fn levels_of(alloc: Global, mesh: &CodeMesh) -> Result<Vec<u16>, AllocError>
    ensures ascending { IfOk result (λ levels. IsStrictlyIncreasing levels.items) }
    ensures are { IfOk result (λ levels. AreLevels mesh.now levels.items) }
{
    let mut levels = all_levels(alloc, mesh)?;
    levels.sort_unstable();
    levels.dedup();
    Ok(levels)
}
