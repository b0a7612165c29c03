// The command `audit`.
ghost use Rattle.std.specs.Prelude.{◌≡◌, ◌↔◌, IfOk, IfSome};
ghost use Rattle.std.specs.FinMap as map;
ghost use Rattle.report_text.specs.Tile.{audit_line_of};
ghost use Rattle.top_reply.specs.Audit.{IsAuditReply, IsAudited, IsTileReply, verdict_reply};
ghost use Rattle.terrain_top.specs.Effects.{Asks, OnlyMemory};
ghost use Rattle.terrain_top.specs.Says.{Says, SaysSome};

use crate::answer::{Answer, Ending, refused};
use crate::file::{FileRead, open_file};
use mesh_check::{Verdict, audit};
use mesh_codec::TileView;
use report_text::{audit_line, finding_text, tile_refusal_text};
use std::alloc::Global;
use terrain_base::Library;
use top_reply::Stop;

/// The most bytes that a tile's file may have.
pub(crate) const TILE_LIMIT: usize = 16_777_216;

// A tile's line, and behind it the verdict on its mesh.
fn tell_verdict(alloc: Global, view: &TileView<'_>, verdict: &Verdict) -> Result<Answer, Stop>
    ensures says { IfOk result (Says (verdict_reply view.now verdict.now)) }
    ensures memory { OnlyMemory result }
{
    let line = audit_line(alloc, view)?;
    match verdict {
        Verdict::Good => {
            let text = format!(in alloc; "{line}\ngood\n")?;
            Ok(Answer {
                ending: Ending::Done,
                text: text.into_bytes(),
            })
        }
        Verdict::Found(finding) => {
            let finding = finding_text(alloc, finding)?;
            let text = format!(in alloc; "{line}\nfound {finding}\n")?;
            Ok(Answer {
                ending: Ending::Found,
                text: text.into_bytes(),
            })
        }
    }
}

// What the mesh of a tile comes to.
fn judge(alloc: Global, view: &TileView<'_>) -> Result<Answer, Stop>
    ensures says { IfOk result (SaysSome (IsAudited view.now)) }
    ensures memory { OnlyMemory result }
{
    let mesh = view.to_mesh(alloc)?;
    let verdict = audit(alloc, &mesh)?;
    tell_verdict(alloc, view, &verdict)
}

// What the bytes of a file come to.
fn read_tile(alloc: Global, bytes: &[u8]) -> Result<Answer, Stop>
    ensures says { IfOk result (SaysSome (IsTileReply bytes.now)) }
    ensures memory { OnlyMemory result }
{
    match TileView::read(bytes) {
        Ok(view) => judge(alloc, &view),
        Err(refusal) => {
            let cause = tile_refusal_text(alloc, &refusal)?;
            refused(alloc, &cause)
        }
    }
}

/// Reads the tile of a file and says how large it is and whether its triangles cover its square exactly once, or why it
/// is refused.
pub(crate) fn answer_to_audit<Li: Library>(
    alloc: Global,
    files: &mut Li,
    file: &str,
) -> Result<Answer, Stop>
    ensures says { IfOk result (λ answer. IfSome (Li.holds files.old) (λ held. SaysSome (IsAuditReply file.now
        (map.get held file.now)) answer)) }
    ensures asks { Asks Li.holds Li.faults files.old files.new result }
{
    match open_file(alloc, files, file, TILE_LIMIT)? {
        FileRead::Bytes(bytes) => read_tile(alloc, &bytes),
        FileRead::NoFile(cause) => refused(alloc, &cause),
    }
}
