//! What heightmaps come to. Each law is what a function with an empty body ensures.
ghost use Rattle.std.specs.Prelude.{◌≤◌, ℕ};
ghost use Rattle.terrain_base.specs.declared.params.Params.{Params};
ghost use Rattle.terrain_base.specs.declared.tile.TileId.{TileId};
ghost use Rattle.cell_mosaic.specs.Cells.{Cells};
ghost use Rattle.heightmap_out.specs.Laws.{ReadsBack, StandsForHeights};

/// A tile that was made is read again: its length, its samples and its mask.
pub fn tiles_read_back()
    ensures { (params : Params) (cells : Cells) (tile : TileId) → ReadsBack params cells tile }
{}

/// A sample of n stands for n / 5 - 1000 metres, and heights beyond what a sample can say are cut.
pub fn samples_stand_for_heights()
    ensures { StandsForHeights }
{}
