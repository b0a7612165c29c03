// The texts of refused tiles.
ghost use Rattle.std.specs.Prelude.{◌≡◌, IfOk, string_bytes};
ghost use Rattle.report_text.specs.TileRefusal.{array_name, edge_name, tile_refusal_text_of};

use mesh_codec::{Array, TileRefusal};
use std::alloc::Global;
use terrain_base::{NoMemory, Side};

// The name of an array.
fn array_word(array: Array) -> &'static str
    ensures { result.now ≡ array_name array }
{
    match array {
        Array::U => "u",
        Array::V => "v",
        Array::Height => "height",
    }
}

// The name of an edge.
fn edge_word(edge: Side) -> &'static str
    ensures { result.now ≡ edge_name edge }
{
    match edge {
        Side::West => "west",
        Side::South => "south",
        Side::East => "east",
        Side::North => "north",
    }
}

/// What is printed of a refused tile, from its number on: `M1` to `M6`, what is wrong and where.
pub fn tile_refusal_text(alloc: Global, refusal: &TileRefusal) -> Result<String, NoMemory>
    ensures { IfOk result (λ text. string_bytes text ≡ tile_refusal_text_of refusal.now) }
{
    match *refusal {
        TileRefusal::Truncated { at, need } => {
            Ok(format!(in alloc; "M1 truncated at {at} need {need}")?)
        }
        TileRefusal::CoordinateOutOfRange { array, k } => {
            let name = array_word(array);
            Ok(format!(in alloc; "M2 coordinate {name} place {k}")?)
        }
        TileRefusal::IndexOutOfRange { k } => Ok(format!(in alloc; "M3 index place {k}")?),
        TileRefusal::EdgeIndexTooLarge { edge, k } => {
            let name = edge_word(edge);
            Ok(format!(in alloc; "M4 edge {name} place {k}")?)
        }
        TileRefusal::ExtensionTruncated { at } => Ok(format!(in alloc; "M5 extension at {at}")?),
        TileRefusal::Compressed => Ok(String::from_str(alloc, "M6 compressed")?),
    }
}
