//! The height at a place.
ghost use Rattle.std.specs.Prelude.{◌≡◌, pos, IfOk, string_bytes};
ghost use Rattle.mesh_query.specs.Field.{triangles_of};
ghost use Rattle.tile_query.specs.Answer.{IsHeightTold};
ghost use Rattle.tile_query.specs.Question.{IsGoodPlace};
ghost use Rattle.tile_query.specs.Text.{height_text_of};

use crate::place::point_of;
use crate::words::{ratio_word, tile_word};
use mesh_query::{MeshField, Ratio, height_at};
use std::alloc::Global;
use terrain_base::{NoMemory, TileId};

/// The text of a height.
fn height_text(alloc: Global, tile: TileId, height: Ratio) -> Result<String, NoMemory>
    ensures { IfOk result (λ text. string_bytes text ≡ height_text_of tile height) }
{
    let tile = tile_word(alloc, tile)?;
    let height = ratio_word(alloc, height)?;
    Ok(format!(in alloc; "height {height} tile {tile}\n")?)
}

/// What is told of the height of the surface at a place.
pub(crate) fn height_told(
    alloc: Global,
    tile: TileId,
    field: &MeshField,
    east: u32,
    north: u32,
) -> Result<String, NoMemory>
    requires { IsGoodPlace tile east north }
    ensures { IfOk result (λ text. IsHeightTold tile field.now east north (string_bytes text)) }
{
    let (u, v) = point_of(tile, east, north);
    height_text(alloc, tile, height_at(field, 648_000, u, v))
}
