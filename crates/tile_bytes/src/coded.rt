// Vertices, triangles and edges by their codes, one by one.
ghost use Rattle.std.specs.Prelude.{◌≡◌, ◌+◌, ◌^◌, ◌<◌, ◌++◌, All, OnOk, length, map};
ghost use Rattle.std.specs.Int.{◌∣◌};
ghost use Rattle.height_lattice.specs.HeightFrame.{IsWithin};
ghost use Rattle.mesh_codec.specs.Mesh.{IsTriangle, edge_of, with_list};
ghost use Rattle.tile_mesh.specs.MeshNumbers.{IsVertexOnGrid};
ghost use Rattle.tile_rule.specs.Tile.{codes_of};

use height_lattice::{HeightFrame, code};
use mesh_codec::CodeMesh;
use terrain_base::{Indexes, NoMemory, Side, grid_line};
use tile_mesh::MeshPoint;

/// Adds vertices by their codes in the frame.
pub fn add_vertices(
    coded: &mut CodeMesh,
    frame: &HeightFrame,
    points: &[MeshPoint],
) -> Result<(), NoMemory>
    requires divisor { frame.now.range ∣ 32767 }
    requires within { All (λ p. IsWithin frame.now p.metres) points.now }
    requires on_grid { All IsVertexOnGrid points.now }
    requires room { length coded.old.vertices + length points.now < 2 ^ 32 }
    ensures { OnOk result (coded.new
        ≡ record coded.old { vertices = coded.old.vertices ++ map (codes_of frame.now) points.now }) }
{
    for point in points {
        let height = code(frame, point.metres);
        coded.add_vertex(grid_line(point.i), grid_line(point.j), height)?;
    }
    Ok(())
}

/// Adds triangles.
pub fn add_triangles(coded: &mut CodeMesh, triangles: &[Indexes]) -> Result<(), NoMemory>
    requires in_range { All (IsTriangle (length coded.old.vertices)) triangles.now }
    requires room { length coded.old.triangles + length triangles.now < 2 ^ 32 }
    ensures { OnOk result (coded.new ≡ record coded.old { triangles = coded.old.triangles ++ triangles.now }) }
{
    for triangle in triangles {
        coded.add_triangle(triangle.a, triangle.b, triangle.c)?;
    }
    Ok(())
}

/// Adds the vertices of an edge.
pub fn add_list(coded: &mut CodeMesh, edge: Side, list: &[u32]) -> Result<(), NoMemory>
    requires in_range { All (λ vertex. vertex < length coded.old.vertices) list.now }
    requires room { length (edge_of coded.old edge) + length list.now < 2 ^ 32 }
    ensures { OnOk result (coded.new ≡ with_list coded.old edge (edge_of coded.old edge ++ list.now)) }
{
    for vertex in list {
        coded.add_edge(edge, *vertex)?;
    }
    Ok(())
}
