//! The profile of a way.
ghost use Rattle.std.specs.Prelude.{◌≡◌, ◌++◌, IfOk, OnOk, string_bytes};
ghost use Rattle.tile_query.specs.Answer.{IsProfileTold};
ghost use Rattle.tile_query.specs.Question.{AreEnds};
ghost use Rattle.tile_query.specs.Text.{break_line_of, profile_text_of};

use crate::words::{ratio_word, tile_word};
use mesh_query::{Break, MeshField, Spot, breaks};
use std::alloc::Global;
use terrain_base::{NoMemory, TileId};

/// Adds the line of a break.
fn push_break(alloc: Global, text: &mut String, bend: &Break) -> Result<(), NoMemory>
    ensures { OnOk result (string_bytes text.new ≡ string_bytes text.old ++ break_line_of bend.now) }
{
    let at = ratio_word(alloc, bend.at)?;
    let metres = ratio_word(alloc, bend.metres)?;
    let line = format!(in alloc; "{at} height {metres}\n")?;
    text.push_str(&line)?;
    Ok(())
}

/// The text of a profile.
fn profile_text(alloc: Global, tile: TileId, bends: &[Break]) -> Result<String, NoMemory>
    ensures { IfOk result (λ text. string_bytes text ≡ profile_text_of tile bends.now) }
{
    let tile = tile_word(alloc, tile)?;
    let points = bends.len();
    let mut text = format!(in alloc; "profile {tile} points {points}\n")?;
    for bend in bends {
        push_break(alloc, &mut text, bend)?;
    }
    Ok(text)
}

/// What is told of the way between two different spots.
pub(crate) fn profile_told(
    alloc: Global,
    tile: TileId,
    field: &MeshField,
    from: Spot,
    to: Spot,
) -> Result<String, NoMemory>
    requires { AreEnds from to }
    ensures { IfOk result (λ text. IsProfileTold tile field.now from to (string_bytes text)) }
{
    let list = breaks(alloc, field, from, to)?;
    profile_text(alloc, tile, &list)
}
