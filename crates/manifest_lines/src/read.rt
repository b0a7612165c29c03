// The reader of manifests.
ghost use Rattle.std.specs.Prelude.{◌↔◌, IfOk, IfErr, IsTrue};
ghost use Rattle.manifest_lines.specs.Manifest.{Fits};
ghost use Rattle.manifest_lines.specs.Reading.{contents_of, IsTextOf, IsRefusedBy};

use crate::head::read_head;
use crate::rows::read_rows;
use crate::{ManifestRefusal, Row, State, Version};
use std::alloc::Global;
use terrain_base::Params;

/// What a manifest says.
#[derive(Drop)]
pub struct Parts<R> {
    pub params: Params,
    pub state: State<R>,
    pub rows: Vec<R>,
}

// Whether a row that is put is among the rows, and one that is dropped is not.
fn fits<R: Row>(state: State<R>, rows: &[R]) -> bool
    ensures { IsTrue result ↔ Fits state rows.now }
{
    match state {
        State::Closed => true,
        State::Put { key } => key.is_among(rows),
        State::Drop { key } => !key.is_among(rows),
        State::Rebuild => true,
    }
}

/// What the manifest of this version says whose text the bytes are. Refused, but for want of memory, exactly where
/// they are the text of none, and then with the line for which they are refused.
pub fn read_parts<R: Row>(
    alloc: Global,
    version: Version,
    bytes: &[u8],
) -> Result<Parts<R>, ManifestRefusal>
    ensures ok { IfOk result (λ parts. IsTextOf R.grammar version bytes.now (contents_of parts)) }
    ensures refused { IfErr result (IsRefusedBy R.grammar version bytes.now) }
{
    let head = match read_head(version, bytes) {
        Ok(head) => head,
        Err(line) => return Err(ManifestRefusal::NotADatabase { line }),
    };
    let rows = read_rows(alloc, version, head.rest, head.count)?;
    if fits(head.state, &rows) {
        Ok(Parts {
            params: head.params,
            state: head.state,
            rows,
        })
    } else {
        Err(ManifestRefusal::NotADatabase { line: 4 })
    }
}
