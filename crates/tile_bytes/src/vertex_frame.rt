// The frame of the heights of vertices.
ghost use Rattle.std.specs.Prelude.{◌≡◌, ◌<◌, All, length};
ghost use Rattle.terrain_base.specs.Height.{IsHeight};
ghost use Rattle.height_lattice.specs.HeightFrame.{frame_of};
ghost use Rattle.post_bound.specs.Span.{least_metres, most_metres};

use height_lattice::{HeightFrame, frame};
use post_bound::{highest, lowest};
use tile_mesh::MeshPoint;

/// The frame of the heights of vertices, of which there is at least one.
pub fn vertex_frame(points: &[MeshPoint]) -> HeightFrame
    requires some { 0 < length points.now }
    requires heights { All (λ p. IsHeight p.metres) points.now }
    ensures { result ≡ frame_of (least_metres points.now) (most_metres points.now) }
{
    frame(lowest(points), highest(points))
}
