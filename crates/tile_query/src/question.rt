//! Questions about the surface of a tile.

use mesh_query::Spot;
use sight_line::Eye;

/// What is asked of the surface of a stored tile.
#[derive(Clone, Copy, Debug)]
pub enum Question {
    /// The height at a place: whole arc-seconds east of 180 degrees west, 0 to 1295999, and north of the south pole, 0
    /// to
    /// 648000. The tile is that of the place, `tile_at`.
    Height { east: u32, north: u32 },
    /// The profile between two different spots.
    Profile { from: Spot, to: Spot },
    /// Whether one eye sees the other; their spots differ.
    Sight { from: Eye, to: Eye },
    /// Which vertices an eye sees.
    View { eye: Eye },
}
