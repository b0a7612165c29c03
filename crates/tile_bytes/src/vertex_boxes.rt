// The boxes of vertices.
ghost use Rattle.std.specs.Prelude.{◌≡◌, All, IfOk, map};
ghost use Rattle.terrain_base.specs.Height.{IsHeight};
ghost use Rattle.tile_mesh.specs.MeshNumbers.{IsVertexOnGrid};
ghost use Rattle.tile_rule.specs.Tile.{vertex_box};

use crate::grid_lines::{meridians, parallels};
use ecef_boxes::{EcefBox, box_at};
use std::alloc::Global;
use terrain_base::{NoMemory, TileId};
use tile_mesh::MeshPoint;

/// The boxes of a tile's vertices. Sines and cosines are taken once a grid line, not once a vertex.
pub fn boxes(alloc: Global, tile: TileId, points: &[MeshPoint]) -> Result<Vec<EcefBox>, NoMemory>
    requires on_grid { All IsVertexOnGrid points.now }
    requires heights { All (λ p. IsHeight p.metres) points.now }
    ensures { IfOk result (λ boxes. boxes.items ≡ map (vertex_box tile) points.now) }
{
    let meridians = meridians(alloc, tile)?;
    let parallels = parallels(alloc, tile)?;
    let mut boxes = Vec::new(alloc);
    for point in points {
        let meridian = &meridians[point.i as usize];
        let parallel = &parallels[point.j as usize];
        boxes.push(box_at(meridian, parallel, point.metres))?;
    }
    Ok(boxes)
}
