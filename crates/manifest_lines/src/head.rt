// The five lines before the rows.
ghost use Rattle.std.specs.Prelude.{◌≡◌, ◌≢◌, ◌++◌, ◌∷◌, ◌≤◌, List, ℕ, codes, IfOk, IfErr, IfSome, IfNone};
ghost use Rattle.manifest_lines.specs.declared.state.State as state;
ghost use Rattle.manifest_lines.specs.Line.{ended};
ghost use Rattle.manifest_lines.specs.Manifest.{head_lines, state_line, state_word, IsStateOf};
ghost use Rattle.manifest_lines.specs.Refused.{IsFirstBad};

use crate::line::{split_line, take_fill, take_number};
use crate::version::take_version;
use crate::{Row, State, Version};
use terrain_base::Params;

// What the lines before the rows say, and the bytes behind them.
#[derive(Clone, Copy)]
pub(crate) struct Head<'a, R> {
    pub(crate) params: Params,
    pub(crate) state: State<R>,
    pub(crate) count: u16,
    pub(crate) rest: &'a [u8],
}

// The state that has this text.
fn read_state<R: Row>(version: Version, text: &[u8]) -> Option<State<R>>
    ensures some { IfSome result (λ state. (text.now ≡ state_word R.grammar state)
        × IsStateOf R.grammar version state) }
    ensures none { IfNone result ((state : state.State R) → IsStateOf R.grammar version state
        → text.now ≢ state_word R.grammar state) }
{
    if text == b"closed".as_slice() {
        return Some(State::Closed);
    }
    if text == b"rebuild".as_slice() {
        return Some(State::Rebuild);
    }
    if let Some(row) = text.strip_prefix(b"put ") {
        let key = R::read(version, row)?;
        return Some(State::Put { key });
    }
    let row = text.strip_prefix(b"drop ")?;
    let key = R::read(version, row)?;
    Some(State::Drop { key })
}

// The line of the state, and what follows it.
fn take_state<R: Row>(version: Version, bytes: &[u8]) -> Option<(State<R>, &[u8])>
    ensures some { IfSome result (λ taken. IsStateOf R.grammar version taken.0
        × (bytes.now ≡ state_line R.grammar taken.0 ++ 10 ∷ taken.1.now)) }
    ensures none { IfNone result ((state : state.State R) (rest : List ℕ) → IsStateOf R.grammar version state
        → bytes.now ≢ state_line R.grammar state ++ 10 ∷ rest) }
{
    let (line, rest) = split_line(bytes)?;
    let state = read_state(version, line.strip_prefix(b"state ")?)?;
    Some((state, rest))
}

// Reads the lines before the rows, or gives the first bad line.
pub(crate) fn read_head<R: Row>(version: Version, bytes: &[u8]) -> Result<Head<'_, R>, u32>
    ensures few { IfOk result (λ head. head.count ≤ 4096) }
    ensures named { IfOk result (λ head. IsStateOf R.grammar version head.state) }
    ensures head { IfOk result (λ head. bytes.now
        ≡ ended (head_lines R.grammar version head.params head.state head.count) ++ head.rest.now) }
    ensures refused { IfErr result (λ line. IsFirstBad R.grammar version line bytes.now) }
{
    let Some(rest) = take_version(bytes, version) else {
        return Err(1);
    };
    let Some((cap, rest)) = take_number(rest, b"cap ", 14) else {
        return Err(2);
    };
    let Some((fill, rest)) = take_fill(rest) else {
        return Err(3);
    };
    let Some((state, rest)) = take_state(version, rest) else {
        return Err(4);
    };
    let Some((count, rest)) = take_number(rest, b"cells ", 4096) else {
        return Err(5);
    };
    let params = Params {
        cap: cap as u8,
        fill,
    };
    Ok(Head {
        params,
        state,
        count,
        rest,
    })
}
