// Indexes: the triangles by high water mark, and the edge lists.
ghost use Rattle.std.specs.Prelude.{
  ◌≡◌,
  ◌==◌,
  ◌+◌,
  ◌-◌,
  ◌*◌,
  ◌^◌,
  ◌<◌,
  ◌≤◌,
  length,
  map,
  OnOk,
  IfOk,
  IfSome,
  None,
  Some,
  if◌then◌else◌,
};
ghost use Rattle.std.specs.List.{range_with_len};
ghost use Rattle.std.specs.Result.{result_err};
ghost use Rattle.common_laws.specs.First.{first_of};
ghost use Rattle.mesh_codec.specs.Text.{index_width};
ghost use Rattle.mesh_codec.specs.Number.{number_at};
ghost use Rattle.mesh_codec.specs.HighWater.{entry_at, is_no_vertex};
ghost use Rattle.mesh_codec.specs.Layout.{list_end};
ghost use Rattle.mesh_codec.specs.Refusal.{index_condition, triangle_conditions, entry_condition, edge_conditions};

use crate::TileRefusal;
use crate::layout::index_bytes;
use crate::number::{long, short};
use crate::part::read_part;
use terrain_base::Side;

/// The number at a place of a list of the index width.
#[tactic(auto, unfolding(crate::specs::Text::index_width))]
pub(crate) fn entry(bytes: &[u8], vertices: u32, at: usize, k: u64) -> u32
    requires { at + index_width vertices * k + index_width vertices ≤ length bytes.now }
    ensures { result ≡ entry_at (index_width vertices) bytes.now at k }
{
    if vertices > 65536 {
        long(bytes, at + 4 * k as usize)
    } else {
        u32::from(short(bytes, at + 2 * k as usize))
    }
}

/// The mark behind an index, if it is one of so many vertices.
fn next_mark(vertices: u32, mark: u32, code: u32) -> Option<u32>
    requires { mark ≤ vertices }
    ensures mark { result ≡ (if is_no_vertex vertices mark code then None else Some
        (if code == 0 then mark + 1 else mark)) }
    ensures few { IfSome result (λ next. next ≤ vertices) }
{
    if mark < code {
        return None;
    }
    if vertices <= mark - code {
        return None;
    }
    Some(if code == 0 { mark + 1 } else { mark })
}

/// Refuses the first index that is negative or no vertex.
#[tactic(auto, using(crate::proofs::HighWaters::mark_none))]
fn read_indexes(bytes: &[u8], vertices: u32, at: usize, count: u64) -> Result<(), TileRefusal>
    requires { at + index_width vertices * count ≤ length bytes.now }
    ensures { result_err result ≡ first_of (map (index_condition bytes.now vertices at) (range_with_len 0 count)) }
{
    let mut mark = 0;
    for k in 0..count {
        let Some(next) = next_mark(vertices, mark, entry(bytes, vertices, at, k)) else {
            return Err(TileRefusal::IndexOutOfRange { k });
        };
        mark = next;
    }
    Ok(())
}

/// Refuses by the triangles that begin at an offset, or gives where they end.
#[tactic(auto, unfolding(crate::specs::Refusal::triangle_conditions))]
pub(crate) fn read_triangles(bytes: &[u8], vertices: u32, at: usize) -> Result<usize, TileRefusal>
    requires { at < 2 ^ 40 }
    ensures refusal { result_err result ≡ first_of (triangle_conditions bytes.now vertices at) }
    ensures end { IfOk result (λ end. end ≡ at + 4 + index_width vertices * (3 * number_at 4 bytes.now at)) }
    ensures near { IfOk result (λ end. end < at + 2 ^ 36) }
{
    read_part(bytes, at, 4)?;
    let codes = 3 * u64::from(long(bytes, at));
    let need = index_bytes(vertices, codes);
    read_part(bytes, at + 4, need)?;
    read_indexes(bytes, vertices, at + 4, codes)?;
    Ok(at + 4 + need)
}

/// Refuses the first index of an edge's list that is no vertex.
#[tactic(auto, using(common_laws::proofs::First::map_next, common_laws::proofs::First::map_found, crate::proofs::HighWaters::entry_within))]
fn read_entries(
    bytes: &[u8],
    vertices: u32,
    edge: Side,
    at: usize,
    count: u32,
) -> Result<(), TileRefusal>
    requires { at + index_width vertices * count ≤ length bytes.now }
    ensures { result_err result ≡ first_of (map (entry_condition bytes.now vertices edge at) (range_with_len 0 count)) }
{
    for k in 0..count {
        if vertices <= entry(bytes, vertices, at, u64::from(k)) {
            return Err(TileRefusal::EdgeIndexTooLarge { edge, k });
        }
    }
    Ok(())
}

/// Refuses by the list of an edge that begins at an offset, or gives where it ends.
#[tactic(auto, unfolding(crate::specs::Refusal::edge_conditions, crate::specs::Layout::list_end))]
pub(crate) fn read_edge(
    bytes: &[u8],
    vertices: u32,
    edge: Side,
    at: usize,
) -> Result<usize, TileRefusal>
    requires { at < 2 ^ 40 }
    ensures refusal { result_err result ≡ first_of (edge_conditions bytes.now vertices edge at) }
    ensures end { IfOk result (λ end. end ≡ list_end (index_width vertices) bytes.now at) }
    ensures near { IfOk result (λ end. end < at + 2 ^ 36) }
    ensures fits { IfOk result (λ end. end ≤ length bytes.now) }
{
    read_part(bytes, at, 4)?;
    let count = long(bytes, at);
    let need = index_bytes(vertices, u64::from(count));
    read_part(bytes, at + 4, need)?;
    read_entries(bytes, vertices, edge, at + 4, count)?;
    Ok(at + 4 + need)
}
