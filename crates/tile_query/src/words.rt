//! Words that stand in several texts.
ghost use Rattle.std.specs.Prelude.{◌≡◌, IfOk, string_bytes};
ghost use Rattle.terrain_base.specs.Name.{tile_text};
ghost use Rattle.tile_query.specs.Text.{ratio_text_of};

use mesh_query::Ratio;
use std::alloc::Global;
use terrain_base::{NoMemory, TileId};

/// A tile's level, column and row.
pub(crate) fn tile_word(alloc: Global, tile: TileId) -> Result<String, NoMemory>
    ensures { IfOk result (λ text. string_bytes text ≡ tile_text tile) }
{
    let z = tile.z();
    let x = tile.x();
    let y = tile.y();
    Ok(format!(in alloc; "{z}/{x}/{y}")?)
}

/// A fraction.
pub(crate) fn ratio_word(alloc: Global, ratio: Ratio) -> Result<String, NoMemory>
    ensures { IfOk result (λ text. string_bytes text ≡ ratio_text_of ratio) }
{
    let over = ratio.over;
    let under = ratio.under;
    Ok(format!(in alloc; "{over}/{under}")?)
}
