//! The law of reading terrain. The function does nothing: its contract is a law for all params, cells and tiles.
ghost use Rattle.tile_field.specs.Laws.{EachTileIsRead};

/// The terrain of each tile is a tile's bytes, each of its vertices has a whole number of metres, and its triangles
/// cover the tile, by codes and in metres: so a reading of it as a mesh in metres is not refused.
pub fn tiles_are_read()
    ensures { EachTileIsRead }
{}
