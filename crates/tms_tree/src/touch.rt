// Which tiles touch a square, and which overlap it.
ghost use Rattle.std.specs.Prelude.{◌≡◌, ◌≤◌, ◌<◌, ◌^◌, ◌↔◌, IsTrue};
ghost use Rattle.tms_tree.specs.Touch.{meets_at, crosses_at, wraps_at, round_meets_at, touches_of, overlaps_of, Touches, Overlaps};

use terrain_base::{Square, TileId};

// The stripe of this number of a level's stripes has a parallel in common with the degree, or a meridian:
// both with their ends.
fn meets(z: u8, stripe: u32, degree: u32) -> bool
    requires level { z ≤ 14 }
    requires stripe { stripe < 2 ^ 15 }
    requires degree { degree < 2 ^ 9 }
    ensures { result ≡ meets_at z stripe degree }
{
    180 * stripe <= (degree + 1) << z && degree << z <= 180 * (stripe + 1)
}

// The same, both without their ends.
fn crosses(z: u8, stripe: u32, degree: u32) -> bool
    requires level { z ≤ 14 }
    requires stripe { stripe < 2 ^ 15 }
    requires degree { degree < 2 ^ 9 }
    ensures { result ≡ crosses_at z stripe degree }
{
    180 * stripe < (degree + 1) << z && degree << z < 180 * (stripe + 1)
}

// Both lie on the meridian 180, from its two sides.
fn wraps(z: u8, column: u32, lon: u32) -> bool
    requires level { z ≤ 14 }
    requires column { column < 2 ^ 15 }
    ensures { result ≡ wraps_at z column lon }
{
    (column == 0 && lon == 359) || (column + 1 == 1 << (z + 1) && lon == 0)
}

// The column has a meridian in common with the degree, both with their ends, longitudes modulo 360.
fn round_meets(z: u8, column: u32, lon: u32) -> bool
    requires level { z ≤ 14 }
    requires column { column < 2 ^ 15 }
    requires degree { lon < 2 ^ 9 }
    ensures { result ≡ round_meets_at z column lon }
{
    meets(z, column, lon) || wraps(z, column, lon)
}

/// Whether the closed rectangles of the tile and the square share a point, longitudes taken modulo 360
/// degrees.
#[tactic(auto, unfolding(crate::specs::Touch::touches_of))]
pub fn touches(tile: TileId, square: Square) -> bool
    ensures value { result ≡ touches_of tile square }
    ensures shared_point { IsTrue result ↔ Touches tile square }
{
    meets(tile.z, tile.y, square.lat as u32) && round_meets(tile.z, tile.x, square.lon as u32)
}

/// Whether the open rectangles of the tile and the square share a point.
#[tactic(auto, unfolding(crate::specs::Touch::overlaps_of))]
pub fn overlaps(tile: TileId, square: Square) -> bool
    ensures value { result ≡ overlaps_of tile square }
    ensures shared_point { IsTrue result ↔ Overlaps tile square }
{
    crosses(tile.z, tile.y, square.lat as u32) && crosses(tile.z, tile.x, square.lon as u32)
}

#[cfg(test)]
mod tests {
    use super::*;
    use std::test::Fail;

    #[test]
    fn corners_and_the_antimeridian_touch_and_do_not_overlap(rt: HostRuntime) -> Result<(), Fail> {
        let corner = Square::of(179, 89).ok_or("square")?;
        let tile = TileId::of(9, 512, 256).ok_or("tile")?;
        assert!(rt; touches(tile, corner));
        assert!(rt; !overlaps(tile, corner));
        let last = Square::of(359, 100).ok_or("square")?;
        let first = TileId::of(9, 0, 285).ok_or("tile")?;
        assert!(rt; touches(first, last));
        assert!(rt; !overlaps(first, last));
        Ok(())
    }
}
