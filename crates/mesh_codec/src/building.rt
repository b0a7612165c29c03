// A mesh, built of what iterators give.
ghost use Rattle.std.specs.Prelude.{◌≡◌, ◌+◌, ◌^◌, ◌<◌, ◌++◌, All, length, OnOk};
ghost use Rattle.mesh_codec.specs.Mesh.{IsVertex, IsTriangle, edge_of, with_list};

use crate::CodeMesh;
use crate::edge_indexes::EdgeIndexes;
use crate::triangles::Triangles;
use crate::vertex_codes::VertexCodes;
use terrain_base::{NoMemory, Side};

/// Adds vertices.
pub(crate) fn add_vertices(mesh: &mut CodeMesh, vertices: VertexCodes<'_>) -> Result<(), NoMemory>
    requires in_range { All IsVertex vertices }
    requires room { length mesh.old.vertices + length vertices < 2 ^ 32 }
    ensures { OnOk result (mesh.new ≡ record mesh.old { vertices = mesh.old.vertices ++ vertices.entry }) }
{
    for codes in vertices {
        mesh.add_vertex(codes.u, codes.v, codes.height)?;
    }
    Ok(())
}

/// Adds triangles.
pub(crate) fn add_triangles(mesh: &mut CodeMesh, triangles: Triangles<'_>) -> Result<(), NoMemory>
    requires in_range { All (IsTriangle (length mesh.old.vertices)) triangles }
    requires room { length mesh.old.triangles + length triangles < 2 ^ 32 }
    ensures { OnOk result (mesh.new ≡ record mesh.old { triangles = mesh.old.triangles ++ triangles.entry }) }
{
    for triangle in triangles {
        mesh.add_triangle(triangle.a, triangle.b, triangle.c)?;
    }
    Ok(())
}

/// Adds vertices along an edge.
#[tactic(auto, using(crate::proofs::Edges::edge_of_list, crate::proofs::Edges::with_list_again, crate::proofs::Edges::vertices_of_list))]
pub(crate) fn add_list(
    mesh: &mut CodeMesh,
    edge: Side,
    list: EdgeIndexes<'_>,
) -> Result<(), NoMemory>
    requires in_range { All (λ vertex. vertex < length mesh.old.vertices) list }
    requires room { length (edge_of mesh.old edge) + length list < 2 ^ 32 }
    ensures { OnOk result (mesh.new ≡ with_list mesh.old edge (edge_of mesh.old edge ++ list.entry)) }
{
    for vertex in list {
        mesh.add_edge(edge, vertex)?;
    }
    Ok(())
}
