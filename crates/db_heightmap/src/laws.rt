//! What the bytes of a tile come to. The law is what a function with an empty body ensures.
ghost use Rattle.std.specs.Prelude.{◌<◌, length};
ghost use Rattle.terrain_base.specs.declared.params.Params.{Params};
ghost use Rattle.terrain_base.specs.declared.tile.TileId.{TileId};
ghost use Rattle.cell_mosaic.specs.Cells.{Cells};
ghost use Rattle.heightmap_out.specs.Tile.{heightmap_of};

/// A tile has bytes.
pub fn tiles_have_bytes()
    ensures { (params : Params) (cells : Cells) (tile : TileId) → 0 < length (heightmap_of params cells tile) }
{}
