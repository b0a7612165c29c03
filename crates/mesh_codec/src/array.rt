// The arrays of codes.
ghost use Rattle.std.specs.Prelude.{
  ◌≡◌,
  ℤ,
  pos,
  ◌+ℤ◌,
  ◌+◌,
  ◌-◌,
  ◌*◌,
  ◌^◌,
  ◌<◌,
  ◌≤◌,
  length,
  map,
  OnOk,
  IfSome,
};
ghost use Rattle.std.specs.List.{range_with_len};
ghost use Rattle.std.specs.Result.{result_err};
ghost use Rattle.common_laws.specs.First.{first_of};
ghost use Rattle.mesh_codec.specs.Difference.{difference, to_code};
ghost use Rattle.mesh_codec.specs.Layout.{array_at};
ghost use Rattle.mesh_codec.specs.Refusal.{code_condition, array_conditions, vertex_conditions};

use crate::layout::index_data;
use crate::number::short;
use crate::part::read_part;
use crate::{Array, TileRefusal};

/// The code that a word's difference leads to, if it is one.
pub(crate) fn code_after(code: u16, word: u16) -> Option<u16>
    requires { code ≤ 32767 }
    ensures code { result ≡ to_code (pos code +ℤ difference word) }
    ensures small { IfSome result (λ next. next ≤ 32767) }
{
    let half = word / 2;
    if word % 2 == 0 {
        let next = code + half;
        if next <= 32767 { Some(next) } else { None }
    } else if half < code {
        Some(code - half - 1)
    } else {
        None
    }
}

/// Refuses the first running value of an array that is no code.
#[tactic(auto, using(crate::proofs::Runs::sum_none))]
fn read_codes(bytes: &[u8], array: Array, at: usize, count: u32) -> Result<(), TileRefusal>
    requires { at + 2 * count ≤ length bytes.now }
    ensures { result_err result ≡ first_of (map (code_condition bytes.now array at) (range_with_len 0 count)) }
{
    let mut code = 0;
    for k in 0..count {
        let Some(next) = code_after(code, short(bytes, at + 2 * k as usize)) else {
            return Err(TileRefusal::CoordinateOutOfRange { array, k });
        };
        code = next;
    }
    Ok(())
}

/// Refuses an array that does not fit, or its first running value that is no code.
#[tactic(auto, unfolding(crate::specs::Refusal::array_conditions))]
fn read_array(bytes: &[u8], array: Array, at: usize, count: u32) -> Result<(), TileRefusal>
    requires { at < 2 ^ 40 }
    ensures refusal { result_err result ≡ first_of (array_conditions bytes.now array at count) }
    ensures fits { OnOk result (at + 2 * count ≤ length bytes.now) }
{
    read_part(bytes, at, 2 * count as usize)?;
    read_codes(bytes, array, at, count)
}

/// Refuses by the arrays and the padding.
#[tactic(auto, using(crate::proofs::First::vertex_first))]
pub(crate) fn read_vertices(bytes: &[u8], vertices: u32) -> Result<(), TileRefusal>
    ensures { result_err result ≡ first_of (vertex_conditions bytes.now vertices) }
{
    let count = vertices as usize;
    read_array(bytes, Array::U, 92, vertices)?;
    read_array(bytes, Array::V, 92 + 2 * count, vertices)?;
    read_array(bytes, Array::Height, 92 + 4 * count, vertices)?;
    read_part(bytes, 92 + 6 * count, index_data(vertices) - 92 - 6 * count)
}
