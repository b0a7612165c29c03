// The lines of a tile.
ghost use Rattle.std.specs.Prelude.{◌≡◌, ◌<◌, ◌^◌, IfOk, length, string_bytes};
ghost use Rattle.report_text.specs.Tile.{audit_line_of};

use mesh_codec::{Extensions, TileView};
use std::alloc::Global;
use terrain_base::NoMemory;

// How many extensions there are.
fn count_of(extensions: Extensions<'_>) -> u64
    requires { length extensions < 2 ^ 63 }
    ensures { result ≡ length extensions.entry }
{
    let mut count: u64 = 0;
    for _extension in extensions {
        count += 1;
    }
    count
}

/// What `audit` prints first of a good tile, without the line feed: how many vertices, triangles and
/// extensions it has.
pub fn audit_line(alloc: Global, view: &TileView<'_>) -> Result<String, NoMemory>
    ensures { IfOk result (λ line. string_bytes line ≡ audit_line_of view.now) }
{
    let vertices = view.vertices();
    let triangles = view.triangle_count();
    let extensions = count_of(view.extensions());
    Ok(format!(in alloc; "vertices {vertices} triangles {triangles} extensions {extensions}")?)
}
