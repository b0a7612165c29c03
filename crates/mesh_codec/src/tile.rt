// A whole tile, passed over once.
ghost use Rattle.std.specs.Prelude.{◌≡◌, ◌+◌, ◌^◌, ◌<◌, ◌≤◌, length};
ghost use Rattle.std.specs.Result.{result_err};
ghost use Rattle.common_laws.specs.First.{first_of};
ghost use Rattle.mesh_codec.specs.Refusal.{conditions_of, tile_refusal_of};

use crate::TileRefusal;
use crate::array::read_vertices;
use crate::extension::read_extensions;
use crate::index::{read_edge, read_triangles};
use crate::layout::index_data;
use crate::number::long;
use crate::part::read_part;
use terrain_base::Side;

/// Refuses the first part that is wrong.
#[tactic(auto, using(crate::proofs::First::all_first), unfolding(crate::specs::Layout::vertices_in, crate::specs::Layout::triangles_in, crate::specs::Layout::west_at, crate::specs::Layout::south_at, crate::specs::Layout::east_at, crate::specs::Layout::north_at, crate::specs::Layout::extensions_at))]
fn read_parts(bytes: &[u8]) -> Result<(), TileRefusal>
    ensures { result_err result ≡ first_of (conditions_of bytes.now) }
{
    read_part(bytes, 0, 88)?;
    read_part(bytes, 88, 4)?;
    let vertices = long(bytes, 88);
    read_vertices(bytes, vertices)?;
    let west = read_triangles(bytes, vertices, index_data(vertices))?;
    let south = read_edge(bytes, vertices, Side::West, west)?;
    let east = read_edge(bytes, vertices, Side::South, south)?;
    let north = read_edge(bytes, vertices, Side::East, east)?;
    let extensions = read_edge(bytes, vertices, Side::North, north)?;
    read_extensions(bytes, extensions)
}

/// Refuses what is no tile.
#[tactic(auto, unfolding(crate::specs::Refusal::tile_refusal_of))]
pub(crate) fn read_tile(bytes: &[u8]) -> Result<(), TileRefusal>
    ensures { result_err result ≡ tile_refusal_of bytes.now }
{
    match read_parts(bytes) {
        Ok(()) => Ok(()),
        Err(_) if bytes.starts_with(&[0x1F, 0x8B]) => Err(TileRefusal::Compressed),
        Err(refusal) => Err(refusal),
    }
}
