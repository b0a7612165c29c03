//! Which vertices an eye sees.
ghost use Rattle.std.specs.Prelude.{◌≡◌, ◌++◌, IfOk, OnOk, codes, decimal, string_bytes};
ghost use Rattle.sight_line.specs.Line.{IsEye};
ghost use Rattle.tile_query.specs.Answer.{IsViewTold};
ghost use Rattle.tile_query.specs.Text.{view_text_of};

use crate::words::tile_word;
use mesh_query::MeshField;
use sight_line::{Eye, view};
use std::alloc::Global;
use terrain_base::{NoMemory, TileId};

/// Adds a line with a number.
fn push_number(alloc: Global, text: &mut String, number: u32) -> Result<(), NoMemory>
    ensures { OnOk result (string_bytes text.new ≡ string_bytes text.old ++ (decimal number ++ codes "\n")) }
{
    let line = format!(in alloc; "{number}\n")?;
    text.push_str(&line)?;
    Ok(())
}

/// The text of a view: how many vertices there are, and the numbers of those that are seen.
fn view_text(alloc: Global, tile: TileId, vertices: u32, seen: &[u32]) -> Result<String, NoMemory>
    ensures { IfOk result (λ text. string_bytes text ≡ view_text_of tile vertices seen.now) }
{
    let tile = tile_word(alloc, tile)?;
    let count = seen.len();
    let mut text = format!(in alloc; "view {tile} vertices {vertices} seen {count}\n")?;
    for number in seen {
        push_number(alloc, &mut text, *number)?;
    }
    Ok(text)
}

/// What is told of the vertices that an eye sees.
pub(crate) fn view_told(
    alloc: Global,
    tile: TileId,
    field: &MeshField,
    eye: Eye,
) -> Result<String, NoMemory>
    requires { IsEye eye }
    ensures { IfOk result (λ text. IsViewTold tile field.now eye (string_bytes text)) }
{
    let seen = view(alloc, field, eye)?;
    view_text(alloc, tile, field.vertices(), &seen)
}
