// A run of tiles of a level's row. It stands alone here: what its tiles are stands in `existing`.
ghost use Rattle.std.specs.Prelude.{◌<◌, ◌≤◌, ◌+◌, ◌^◌};

/// Tiles of one row of level `z`, from the column `start` to the column `end`, both among them.
#[derive(Clone, Copy)]
pub(crate) struct LevelRun {
    pub(crate) z: u8,
    pub(crate) row: u32,
    pub(crate) start: u32,
    pub(crate) end: u32,
    pub ghost z_in_range: { z ≤ 14 },
    pub ghost row_in_range: { row < 2 ^ z },
    pub ghost ordered: { start ≤ end },
    pub ghost end_in_range: { end < 2 ^ (z + 1) },
}
