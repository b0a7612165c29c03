// Where the parts of a tile stand.
ghost use Rattle.std.specs.Prelude.{◌≡◌, ◌+◌, ◌*◌, ◌^◌, ◌<◌, ◌≤◌, length};
ghost use Rattle.mesh_codec.specs.Text.{index_width, index_data_at, padding_text};
ghost use Rattle.mesh_codec.specs.Layout.{
  vertices_in,
  triangles_in,
  array_at,
  list_end,
  west_at,
  south_at,
  east_at,
  north_at,
  extensions_at,
  edge_at,
};
ghost use Rattle.mesh_codec.specs.Good.{IsTile};

use crate::Array;
use crate::number::long;
use terrain_base::Side;

/// The padding before the index data: they are aligned to four bytes where an index has four.
#[tactic(auto, using(crate::proofs::Texts::padding_narrow, crate::proofs::Texts::padding_even, crate::proofs::Texts::padding_odd))]
pub(crate) fn padding(vertices: u32) -> &'static [u8]
    ensures { result.now ≡ padding_text vertices }
{
    if vertices <= 65536 {
        return &[];
    }
    if vertices % 2 == 0 {
        return &[];
    }
    &[0, 0]
}

/// The bytes of so many indexes.
#[tactic(auto, unfolding(crate::specs::Text::index_width))]
pub(crate) fn index_bytes(vertices: u32, count: u64) -> usize
    requires { count < 2 ^ 40 }
    ensures bytes { result ≡ index_width vertices * count }
    ensures few { result ≤ 4 * count }
{
    if vertices > 65536 {
        4 * count as usize
    } else {
        2 * count as usize
    }
}

/// Where the index data begin, behind the arrays and the padding.
#[tactic(auto, using(crate::proofs::Texts::padding_length, crate::proofs::Texts::index_data_beyond))]
pub(crate) fn index_data(vertices: u32) -> usize
    ensures offset { result ≡ index_data_at vertices }
    ensures beyond { 92 + 6 * vertices ≤ result }
    ensures near { result < 2 ^ 36 }
{
    92 + 6 * vertices as usize + padding(vertices).len()
}

/// Where an array begins.
pub(crate) fn array_start(vertices: u32, array: Array) -> usize
    ensures { result ≡ array_at vertices array }
{
    match array {
        Array::U => 92,
        Array::V => 92 + 2 * vertices as usize,
        Array::Height => 92 + 4 * vertices as usize,
    }
}

/// How many vertices a tile has.
#[tactic(auto, unfolding(crate::specs::Layout::vertices_in), using(crate::proofs::Places::counted))]
pub(crate) fn vertex_number(bytes: &[u8]) -> u32
    requires { IsTile bytes.now }
    ensures number { result ≡ vertices_in bytes.now }
    ensures few { result < 2 ^ 32 }
{
    long(bytes, 88)
}

/// How many triangles a tile has.
#[tactic(auto, unfolding(crate::specs::Layout::triangles_in), using(crate::proofs::Places::triangles_counted))]
pub(crate) fn triangle_number(bytes: &[u8]) -> u32
    requires { IsTile bytes.now }
    ensures number { result ≡ triangles_in bytes.now }
    ensures few { result < 2 ^ 32 }
{
    long(bytes, index_data(vertex_number(bytes)))
}

/// Where a list ends, by where it begins.
#[tactic(auto, unfolding(crate::specs::Layout::list_end))]
fn list_behind(bytes: &[u8], vertices: u32, at: usize) -> usize
    requires fits { list_end (index_width vertices) bytes.now at ≤ length bytes.now }
    ensures { result ≡ list_end (index_width vertices) bytes.now at }
{
    at + 4 + index_bytes(vertices, u64::from(long(bytes, at)))
}

/// Where the list of the west edge begins.
#[tactic(auto, unfolding(crate::specs::Layout::west_at))]
fn west_start(bytes: &[u8]) -> usize
    requires { IsTile bytes.now }
    ensures { result ≡ west_at bytes.now }
{
    let vertices = vertex_number(bytes);
    let codes = 3 * u64::from(triangle_number(bytes));
    index_data(vertices) + 4 + index_bytes(vertices, codes)
}

/// Where the list of the south edge begins.
#[tactic(auto, unfolding(crate::specs::Layout::south_at), using(crate::proofs::Places::west_fits))]
fn south_start(bytes: &[u8]) -> usize
    requires { IsTile bytes.now }
    ensures { result ≡ south_at bytes.now }
{
    list_behind(bytes, vertex_number(bytes), west_start(bytes))
}

/// Where the list of the east edge begins.
#[tactic(auto, unfolding(crate::specs::Layout::east_at), using(crate::proofs::Places::south_fits))]
fn east_start(bytes: &[u8]) -> usize
    requires { IsTile bytes.now }
    ensures { result ≡ east_at bytes.now }
{
    list_behind(bytes, vertex_number(bytes), south_start(bytes))
}

/// Where the list of the north edge begins.
#[tactic(auto, unfolding(crate::specs::Layout::north_at), using(crate::proofs::Places::east_fits))]
fn north_start(bytes: &[u8]) -> usize
    requires { IsTile bytes.now }
    ensures { result ≡ north_at bytes.now }
{
    list_behind(bytes, vertex_number(bytes), east_start(bytes))
}

/// Where the extensions begin.
#[tactic(auto, unfolding(crate::specs::Layout::extensions_at), using(crate::proofs::Places::north_fits))]
pub(crate) fn extensions_start(bytes: &[u8]) -> usize
    requires { IsTile bytes.now }
    ensures { result ≡ extensions_at bytes.now }
{
    list_behind(bytes, vertex_number(bytes), north_start(bytes))
}

/// Where the list of an edge begins.
pub(crate) fn edge_start(bytes: &[u8], edge: Side) -> usize
    requires { IsTile bytes.now }
    ensures { result ≡ edge_at bytes.now edge }
{
    match edge {
        Side::West => west_start(bytes),
        Side::South => south_start(bytes),
        Side::East => east_start(bytes),
        Side::North => north_start(bytes),
    }
}
