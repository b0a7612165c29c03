// Extensions, up to the end of a tile.
ghost use Rattle.std.specs.Prelude.{◌≡◌, ◌+◌, ◌<◌, ◌≤◌, length, nat_lt, None, Some, if◌then◌else◌};
ghost use Rattle.std.specs.Result.{result_err};
ghost use Rattle.common_laws.specs.First.{first_of};
ghost use Rattle.mesh_codec.specs.Extension.{extension_end};
ghost use Rattle.mesh_codec.specs.Refusal.{extension_conditions};

use crate::TileRefusal;
use crate::number::long;

/// Where an extension ends, if it fits.
#[tactic(auto, unfolding(crate::specs::Extension::extension_end))]
pub(crate) fn end_of(bytes: &[u8], at: usize) -> Option<usize>
    requires { at < length bytes.now }
    ensures { result ≡ (if nat_lt (length bytes.now) (extension_end bytes.now at) then None else Some
        (extension_end bytes.now at)) }
{
    if bytes.len() - at < 5 {
        return None;
    }
    let length = long(bytes, at + 1) as usize;
    if bytes.len() - at - 5 < length {
        return None;
    }
    Some(at + 5 + length)
}

/// Refuses the first extension that does not fit.
#[tactic(auto, using(crate::proofs::ExtensionSteps::conditions_next, crate::proofs::ExtensionSteps::conditions_found, crate::proofs::ExtensionSteps::conditions_none))]
pub(crate) fn read_extensions(bytes: &[u8], start: usize) -> Result<(), TileRefusal>
    requires { start ≤ length bytes.now }
    ensures { result_err result ≡ first_of (extension_conditions bytes.now start) }
{
    let mut at = start;
    while at < bytes.len() {
        let Some(end) = end_of(bytes, at) else {
            return Err(TileRefusal::ExtensionTruncated { at: at as u64 });
        };
        at = end;
    }
    Ok(())
}
