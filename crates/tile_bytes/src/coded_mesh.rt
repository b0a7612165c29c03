// A mesh by its codes.
ghost use Rattle.std.specs.Prelude.{◌≡◌, ◌≤◌, All, IfOk, length};
ghost use Rattle.std.specs.Int.{◌∣◌};
ghost use Rattle.height_lattice.specs.HeightFrame.{IsWithin};
ghost use Rattle.tile_mesh.specs.MeshNumbers.{IsNumbered};
ghost use Rattle.tile_rule.specs.Tile.{coded_by};
ghost use Rattle.tile_bytes.specs.Surface.{surface_by};

use crate::coded::{add_list, add_triangles, add_vertices};
use height_lattice::HeightFrame;
use mesh_codec::CodeMesh;
use std::alloc::Global;
use terrain_base::{NoMemory, Side};
use tile_mesh::TileMesh;

// The vertices and triangles of the mesh by their codes.
fn surface(alloc: Global, frame: &HeightFrame, mesh: &TileMesh) -> Result<CodeMesh, NoMemory>
    requires divisor { frame.now.range ∣ 32767 }
    requires within { All (λ p. IsWithin frame.now p.metres) mesh.now.points }
    requires numbered { IsNumbered mesh.now }
    requires few { length mesh.now.triangles ≤ 8712 }
    ensures { IfOk result (λ coded. coded ≡ surface_by frame.now mesh.now) }
{
    let mut coded = CodeMesh::empty(alloc);
    add_vertices(&mut coded, frame, mesh.points())?;
    add_triangles(&mut coded, mesh.triangles())?;
    Ok(coded)
}

/// The mesh by its codes in the frame.
pub fn coded_mesh(alloc: Global, frame: &HeightFrame, mesh: &TileMesh) -> Result<CodeMesh, NoMemory>
    requires divisor { frame.now.range ∣ 32767 }
    requires within { All (λ p. IsWithin frame.now p.metres) mesh.now.points }
    requires numbered { IsNumbered mesh.now }
    requires few { length mesh.now.triangles ≤ 8712 }
    ensures { IfOk result (λ coded. coded ≡ coded_by frame.now mesh.now) }
{
    let mut coded = surface(alloc, frame, mesh)?;
    add_list(&mut coded, Side::West, mesh.edge(Side::West))?;
    add_list(&mut coded, Side::South, mesh.edge(Side::South))?;
    add_list(&mut coded, Side::East, mesh.edge(Side::East))?;
    add_list(&mut coded, Side::North, mesh.edge(Side::North))?;
    Ok(coded)
}
