// The note of a tile.
ghost use Rattle.std.specs.Prelude.{◌≡◌, ◌≤◌, IfOk, length, string_bytes};
ghost use Rattle.tile_rule.specs.Tile.{multiple_or_none, note_text};

use std::alloc::Global;
use terrain_base::{NoMemory, tolerance};
use tile_mesh::TileMesh;

// The multiple in decimal, or `none`.
fn multiple_text(alloc: Global, horizon: Option<u16>) -> Result<String, NoMemory>
    ensures { IfOk result (λ text. string_bytes text ≡ multiple_or_none horizon) }
{
    match horizon {
        Some(multiple) => Ok(format!(in alloc; "{multiple}")?),
        None => Ok(String::from_str(alloc, "none")?),
    }
}

/// The note of a tile of this level: its bound and the level's tolerance in metres, how many vertices and triangles
/// its mesh has, and its horizon's multiple.
pub fn note(
    alloc: Global,
    bound: u32,
    level: u8,
    mesh: &TileMesh,
    horizon: Option<u16>,
) -> Result<Vec<u8>, NoMemory>
    requires { level ≤ 14 }
    ensures { IfOk result (λ note. note.items
        ≡ note_text bound level (length mesh.now.points) (length mesh.now.triangles) horizon) }
{
    let tolerance = tolerance(level);
    let vertices = mesh.points().len();
    let triangles = mesh.triangles().len();
    let multiple = multiple_text(alloc, horizon)?;
    let text = format!(in alloc;
        "bound {bound} tolerance {tolerance} vertices {vertices} triangles {triangles} horizon {multiple}\n"
    )?;
    Ok(text.into_bytes())
}
