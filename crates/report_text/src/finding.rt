// The texts of what an audit finds.
ghost use Rattle.std.specs.Prelude.{◌≡◌, IfOk, string_bytes};
ghost use Rattle.report_text.specs.Finding.{finding_text_of};

use mesh_check::Finding;
use std::alloc::Global;
use terrain_base::NoMemory;

/// What is printed of a mesh that does not cover its tile once: what is wrong first, and where. Places are counted from
/// 0; levels are codes of v, 0 to 32767.
pub fn finding_text(alloc: Global, finding: &Finding) -> Result<String, NoMemory>
    ensures { IfOk result (λ text. string_bytes text ≡ finding_text_of finding.now) }
{
    match *finding {
        Finding::TooLarge { vertices } => Ok(format!(in alloc; "too-large {vertices}")?),
        Finding::NotCounterClockwise { triangle } => {
            Ok(format!(in alloc; "not-counter-clockwise triangle {triangle}")?)
        }
        Finding::SlabGap { low, high, place } => {
            Ok(format!(in alloc; "slab-gap {low} {high} place {place}")?)
        }
        Finding::HeightGap { low, high, place } => {
            Ok(format!(in alloc; "height-gap {low} {high} place {place}")?)
        }
        Finding::LineDisagrees { v } => Ok(format!(in alloc; "line-disagrees {v}")?),
    }
}
