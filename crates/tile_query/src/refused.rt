//! Why a tile gives no heights.
ghost use Rattle.std.specs.Prelude.{◌≡◌, ◌≢◌, IfOk, string_bytes};
ghost use Rattle.mesh_query.specs.declared.refusal.QueryRefusal.TheVariants.{NoMemory as NoMemoryLeft};
ghost use Rattle.tile_query.specs.Text.{cause_text_of};

use mesh_query::QueryRefusal;
use report_text::finding_text;
use std::alloc::Global;
use terrain_base::NoMemory;

/// The text of a cause, from its number on. Want of memory is none, and stays what it is.
pub(crate) fn cause_text(alloc: Global, refusal: &QueryRefusal) -> Result<String, NoMemory>
    ensures no_want { IfOk result (λ _. refusal.now ≢ NoMemoryLeft) }
    ensures text { IfOk result (λ text. string_bytes text ≡ cause_text_of refusal.now) }
{
    match *refusal {
        QueryRefusal::NotWhole { vertex } => {
            Ok(format!(in alloc; "Q1 not whole vertex {vertex}")?)
        }
        QueryRefusal::Unsound { finding } => {
            let finding = finding_text(alloc, &finding)?;
            Ok(format!(in alloc; "Q2 unsound {finding}")?)
        }
        QueryRefusal::NoMemory => Err(NoMemory),
    }
}
