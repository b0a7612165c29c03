// The terrain file of a mesh.
ghost use Rattle.std.specs.Prelude.{◌≡◌, IfOk};
ghost use Rattle.tile_mesh.specs.Mesh.{IsMeshAt};
ghost use Rattle.tile_rule.specs.Tile.{horizon_in, terrain_in};

use crate::coded_mesh::coded_mesh;
use crate::header::header;
use crate::horizon::horizon_point;
use crate::vertex_boxes::boxes;
use crate::vertex_frame::vertex_frame;
use bound_spheres::{horizon, sphere_of};
use mesh_codec::encode;
use std::alloc::Global;
use terrain_base::{NoMemory, TileId};
use tile_mesh::TileMesh;

/// A terrain file, with the number that only its making tells.
#[derive(Debug, Drop)]
pub struct TerrainFile {
    /// The bytes of the file.
    pub bytes: Vec<u8>,
    /// The multiple of the certified horizon, in 256ths of the scaled centre, from 256 to 4096. None where there is
    /// none and the horizon point is the far point.
    pub horizon: Option<u16>,
}

/// The terrain file of a tile's mesh: the one spelling of its header and its mesh in quantized-mesh-1.0, without
/// extensions.
///
/// Boxes and sphere are found once, and both the header and the note's multiple are of them.
pub fn terrain(alloc: Global, tile: TileId, mesh: &TileMesh) -> Result<TerrainFile, NoMemory>
    requires { IsMeshAt tile.z mesh.now }
    ensures bytes { IfOk result (λ file. file.bytes.items ≡ terrain_in tile mesh.now) }
    ensures horizon { IfOk result (λ file. file.horizon ≡ horizon_in tile mesh.now) }
{
    let boxes = boxes(alloc, tile, mesh.points())?;
    let sphere = sphere_of(&boxes);
    let multiple = horizon(&sphere, &boxes);
    let point = horizon_point(multiple, &sphere);
    let frame = vertex_frame(mesh.points());
    let header = header(&frame, &sphere, &point);
    let coded = coded_mesh(alloc, &frame, mesh)?;
    let bytes = encode(alloc, &header, &coded)?;
    Ok(TerrainFile {
        bytes,
        horizon: multiple,
    })
}
