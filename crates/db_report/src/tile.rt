// The line of a stored tile.
ghost use Rattle.std.specs.Prelude.{◌≡◌, ◌<◌, ◌^◌, ℤ, IfOk, Option, length, string_bytes};
ghost use Rattle.mesh_codec.specs.Tile.{edge_list, header_in};
ghost use Rattle.db_report.specs.Tile.{IsHeightWord, edges_text, tile_line_of};

use crate::words::{number_word, tile_word};
use float_bits::lattice32;
use mesh_codec::TileView;
use std::alloc::Global;
use terrain_base::{NoMemory, Side, TileId};

// How many vertices lie on an edge.
fn count_on(view: &TileView<'_>, edge: Side) -> u64
    ensures { result ≡ length (edge_list view.now edge) }
{
    let mut count: u64 = 0;
    for _vertex in view.edge(edge) {
        count += 1;
    }
    count
}

// The numbers of the vertices on the four edges.
fn edges_word(alloc: Global, view: &TileView<'_>) -> Result<String, NoMemory>
    ensures { IfOk result (λ text. string_bytes text ≡ edges_text view.now) }
{
    let west = count_on(view, Side::West);
    let south = count_on(view, Side::South);
    let east = count_on(view, Side::East);
    let north = count_on(view, Side::North);
    Ok(format!(in alloc; "{west} {south} {east} {north}")?)
}

/// What `inspect` prints first of a stored tile, without the line feed: the number given for its bytes, how many
/// vertices and triangles it has, its header's least and greatest height in metres (a dash where one is no whole number
/// below 2^24), and how many vertices lie on its west, south, east and north edge.
pub fn tile_line(
    alloc: Global,
    tile: TileId,
    bytes: u64,
    view: &TileView<'_>,
) -> Result<String, NoMemory>
    ensures { IfOk result (λ line. (least greatest : Option ℤ) → IsHeightWord (header_in view.now).least least
        → IsHeightWord (header_in view.now).greatest greatest
        → string_bytes line ≡ tile_line_of tile bytes view.now least greatest) }
{
    let tile = tile_word(alloc, tile)?;
    let vertices = view.vertices();
    let triangles = view.triangle_count();
    let header = view.header();
    let least = number_word(alloc, lattice32(header.least))?;
    let greatest = number_word(alloc, lattice32(header.greatest))?;
    let edges = edges_word(alloc, view)?;
    let size = format!(in alloc;
        "tile {tile} bytes {bytes} vertices {vertices} triangles {triangles}"
    )?;
    Ok(format!(in alloc; "{size} min {least} max {greatest} edges {edges}")?)
}
