// A tile of the quadtree. It stands alone here: what its text is stands in `name`.
ghost use Rattle.std.specs.Prelude.{◌<◌, ◌≤◌, ◌+◌, ◌^◌};

/// A tile of TMS's global-geodetic profile: a level has `2^(z+1)` columns from 180 degrees west and
/// `2^z` rows from the south pole. Tiles are ordered by level, then row, then column.
#[derive(Clone, Copy, Debug, PartialEq, Eq, PartialOrd, Ord)]
pub struct TileId {
    /// The level, 0 to 14.
    pub z: u8,
    /// The row, counted from the south.
    pub y: u32,
    /// The column, counted from the west.
    pub x: u32,
    ghost z_in_range: { z ≤ 14 },
    ghost y_in_range: { y < 2 ^ z },
    ghost x_in_range: { x < 2 ^ (z + 1) },
}

impl TileId {
    ghost use Rattle.std.specs.Prelude.{◌≡◌, ◌↔◌, IsSome, IfSome};

    /// The tile with these numbers. `None` exactly where the level is above 14, the column is not below
    /// `2^(z+1)` or the row is not below `2^z`.
    pub fn of(z: u8, x: u32, y: u32) -> Option<TileId>
        ensures some { IsSome result ↔ ((z ≤ 14) × (x < 2 ^ (z + 1)) × (y < 2 ^ z)) }
        ensures value { IfSome result (λ tile. (tile.z ≡ z) × (tile.x ≡ x) × (tile.y ≡ y)) }
    {
        if z <= 14 && x >> (z + 1) == 0 && y >> z == 0 {
            Some(TileId { z, y, x })
        } else {
            None
        }
    }

    /// The level, 0 to 14.
    pub fn z(&self) -> u8
        ensures { result ≡ self.now.z }
    {
        self.z
    }

    /// The column, counted from 180 degrees west, below `2^(z+1)`.
    pub fn x(&self) -> u32
        ensures { result ≡ self.now.x }
    {
        self.x
    }

    /// The row, counted from the south pole, below `2^z`.
    pub fn y(&self) -> u32
        ensures { result ≡ self.now.y }
    {
        self.y
    }
}
