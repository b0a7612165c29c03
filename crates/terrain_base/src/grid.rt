// The heights of a tile's grid points.
ghost use Rattle.std.specs.Prelude.{◌≡◌, ◌≤◌, ◌*◌, ◌+◌, IfOk, pos, replicate, slice_set, length};
ghost use Rattle.terrain_base.specs.Grid.{height_in, spot, line_position, tolerance_of};
ghost use Rattle.terrain_base.specs.Height.{IsHeight};

use crate::NoMemory;
use std::alloc::Global;
use std::marker::Model;

/// The heights of a tile's 67 by 67 grid points, in metres, each within -16000 to 16000: row by row
/// from the south, each row from the west.
#[derive(Debug, Drop)]
pub struct Grid {
    heights: Vec<i16>,
}

impl Model for Grid {
    ghost use Rattle.std.specs.Prelude.{List, ℤ};
    ghost use Rattle.terrain_base.specs.Grid.{IsGrid};

    ghost Value = { List ℤ };

    ghost view = { λ g. g.heights.items };

    ghost invariant = { λ g. IsGrid g.heights.items };
}

impl Grid {
    /// A grid whose heights are all 0.
    pub fn new(alloc: Global) -> Result<Grid, NoMemory>
        ensures { IfOk result (λ grid. grid ≡ replicate 4489 (pos 0)) }
    {
        Ok(Grid {
            heights: vec![in alloc; 0i16; 4489]?,
        })
    }

    /// The height in metres at the grid point in column `i` from the west and row `j` from the south.
    pub fn get(&self, i: u8, j: u8) -> i16
        requires column { i ≤ 66 }
        requires row { j ≤ 66 }
        ensures value { result ≡ height_in self.now i j }
        ensures height { IsHeight result }
    {
        self.heights[67 * j as usize + i as usize]
    }

    /// Sets the height there.
    pub fn set(&mut self, i: u8, j: u8, metres: i16)
        requires column { i ≤ 66 }
        requires row { j ≤ 66 }
        requires height { IsHeight metres }
        ensures value { self.new ≡ slice_set self.old (spot i j) metres }
        ensures full { length self.new ≡ 4489 }
    {
        self.heights[67 * j as usize + i as usize] = metres;
    }

    /// All heights, row by row from the south, each row from the west.
    pub fn heights(&self) -> &[i16]
        ensures { result.now ≡ self.now }
    {
        &self.heights
    }
}

/// How far the grid line of this number lies from the tile's west or south edge, in tile units of
/// which an edge has 32767.
pub fn grid_line(i: u8) -> u16
    requires { i ≤ 66 }
    ensures value { result ≡ line_position i }
    ensures within { result ≤ 32767 }
{
    (32767 * i as u32 / 66) as u16
}

/// The tolerance of a level, in metres: 8192 at level 0, half as much at each next one, at least 1.
pub fn tolerance(z: u8) -> u16
    requires { z ≤ 14 }
    ensures value { result ≡ tolerance_of z }
    ensures within { (1 ≤ result) × (result ≤ 8192) }
{
    (8192u16 >> z).max(1)
}
