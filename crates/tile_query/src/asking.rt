//! Questions over the bytes of a tile.
ghost use Rattle.std.specs.Prelude.{◌≡◌, IfOk, string_bytes};
ghost use Rattle.tile_query.specs.Answer.{IsTold, IsReadAnswer, IsAnswerTo, in_bytes};
ghost use Rattle.tile_query.specs.Question.{IsGoodQuestion};

use crate::height::height_told;
use crate::profile::profile_told;
use crate::question::Question;
use crate::refused::cause_text;
use crate::reply::Answer;
use crate::sight::sight_told;
use crate::view::view_told;
use mesh_codec::TileView;
use mesh_query::MeshField;
use report_text::tile_refusal_text;
use std::alloc::Global;
use terrain_base::{NoMemory, TileId};

/// What is told over the mesh of a tile in metres.
fn told(
    alloc: Global,
    tile: TileId,
    field: &MeshField,
    question: &Question,
) -> Result<String, NoMemory>
    requires { IsGoodQuestion tile question.now }
    ensures { IfOk result (λ text. IsTold tile field.now question.now (string_bytes text)) }
{
    match *question {
        Question::Height { east, north } => height_told(alloc, tile, field, east, north),
        Question::Profile { from, to } => profile_told(alloc, tile, field, from, to),
        Question::Sight { from, to } => sight_told(alloc, field, from, to),
        Question::View { eye } => view_told(alloc, tile, field, eye),
    }
}

/// What is answered over the bytes of a tile.
fn read_answer(
    alloc: Global,
    tile: TileId,
    view: &TileView<'_>,
    question: &Question,
) -> Result<Answer, NoMemory>
    requires { IsGoodQuestion tile question.now }
    ensures { IfOk result (λ answer. IsReadAnswer tile view.now question.now (in_bytes answer)) }
{
    match MeshField::of(alloc, view) {
        Ok(field) => Ok(Answer::Told(told(alloc, tile, &field, question)?)),
        Err(refusal) => Ok(Answer::Refused(cause_text(alloc, &refusal)?)),
    }
}

/// What a question is answered over any bytes that are stored under the name of the tile.
///
/// The bytes are refused where they are no tile of quantized-mesh-1.0 (`M1` to `M6`); else where a vertex has no whole
/// number of metres within 65535 (`Q1`); else where an audit of the mesh finds something (`Q2`). Otherwise they are
/// answered. Takes time linear in the mesh for a height, a profile or sight, and in the number of vertices times that
/// of triangles for a view.
pub fn answer(
    alloc: Global,
    tile: TileId,
    bytes: &[u8],
    question: &Question,
) -> Result<Answer, NoMemory>
    requires { IsGoodQuestion tile question.now }
    ensures { IfOk result (λ answer. IsAnswerTo tile bytes.now question.now (in_bytes answer)) }
{
    match TileView::read(bytes) {
        Ok(view) => read_answer(alloc, tile, &view, question),
        Err(refusal) => Ok(Answer::Refused(tile_refusal_text(alloc, &refusal)?)),
    }
}
