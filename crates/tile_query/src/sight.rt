//! Whether one eye sees another.
ghost use Rattle.std.specs.Prelude.{◌≡◌, ◌≢◌, IfOk, string_bytes};
ghost use Rattle.mesh_query.specs.Way.{place};
ghost use Rattle.sight_line.specs.Line.{IsEye};
ghost use Rattle.tile_query.specs.Answer.{IsSightTold};
ghost use Rattle.tile_query.specs.Text.{sight_text_of};

use crate::words::ratio_word;
use mesh_query::MeshField;
use sight_line::{Eye, SightAnswer, sight};
use std::alloc::Global;
use terrain_base::NoMemory;

/// The text of an answer.
fn sight_text(alloc: Global, answer: &SightAnswer) -> Result<String, NoMemory>
    ensures { IfOk result (λ text. string_bytes text ≡ sight_text_of answer.now) }
{
    match *answer {
        SightAnswer::Clear => Ok(String::from_str(alloc, "clear\n")?),
        SightAnswer::Blocked {
            at,
            triangle,
            ground,
            line,
        } => {
            let at = ratio_word(alloc, at)?;
            let height = ratio_word(alloc, ground)?;
            let line = ratio_word(alloc, line)?;
            Ok(format!(in alloc;
                "blocked at {at} triangle {triangle} ground {height} line {line}\n"
            )?)
        }
    }
}

/// What is told of the sight between two eyes over different spots.
pub(crate) fn sight_told(
    alloc: Global,
    field: &MeshField,
    from: Eye,
    to: Eye,
) -> Result<String, NoMemory>
    requires from { IsEye from }
    requires to { IsEye to }
    requires apart { place from.spot ≢ place to.spot }
    ensures { IfOk result (λ text. IsSightTold field.now from to (string_bytes text)) }
{
    let answer = sight(alloc, field, from, to)?;
    sight_text(alloc, &answer)
}
