// What is asked of a database.
ghost use Rattle.std.specs.Prelude.{◌≡◌, true, ℤ, IfOk, Option, Some};
ghost use Rattle.db_report.specs.Listing.{list_text_of};
ghost use Rattle.db_report.specs.Tile.{IsHeightWord};
ghost use Rattle.mesh_codec.specs.Tile.{header_in};
ghost use Rattle.terrain_top.specs.Effects.{OnlyMemory, OnStore};
ghost use Rattle.terrain_top.specs.Says.{IsPlain, Says, SaysSome};
ghost use Rattle.terrain_top.specs.Told.{HasReply};
ghost use Rattle.terrain_base.specs.Step.{Files};
ghost use Rattle.availability.specs.Existence.{exists_of};
ghost use Rattle.database.specs.State.{State};
ghost use Rattle.db_engine.specs.Holding.{HoldsState};
ghost use Rattle.tile_query.specs.Question.{IsGoodQuestion};
ghost use Rattle.top_words.specs.Words.{IsGoodQuery};
ghost use Rattle.top_reply.specs.Query.{IsInspected, IsReplyTo, IsSurfaceAsked, IsSurfaceReply, deps_reply};
ghost use Rattle.top_reply.specs.Query.{heightmap_reply, shown_reply};
ghost use Rattle.top_reply.specs.Reply.{Reply, text_reply};

use crate::answer::{Answer, Ending, refused};
use crate::engine_answer::answer_of;
use availability::exists;
use database::EngineAnswer;
use db_engine::{Opened, stored_tile};
use db_heightmap::heightmap_tile;
use db_report::{deps_text, list_text, tile_line};
use mesh_codec::TileView;
use report_text::tile_refusal_text;
use std::alloc::Global;
use terrain_base::{Store, TileId};
use tile_deps::DepIndex;
use tile_query::{Answer as SurfaceAnswer, Question, answer};
use top_reply::Stop;
use top_words::Query;

// The params and the cells.
fn answer_to_list(alloc: Global, opened: &Opened) -> Result<Answer, Stop>
    ensures says { IfOk result (Says (text_reply (list_text_of opened.now.params opened.now.rows))) }
    ensures plain { IfOk result IsPlain }
    ensures memory { OnlyMemory result }
{
    let text = list_text(alloc, opened.params(), opened.summaries())?;
    Ok(Answer {
        ending: Ending::Done,
        text: text.into_bytes(),
    })
}

// The squares with cells that a tile touches.
fn answer_to_deps(alloc: Global, opened: &Opened, tile: TileId) -> Result<Answer, Stop>
    ensures says { IfOk result (Says (deps_reply tile opened.now.params.cap opened.now.rows)) }
    ensures plain { IfOk result IsPlain }
    ensures memory { OnlyMemory result }
{
    let rows = opened.summaries();
    let cap = opened.params().cap();
    if !exists(rows, cap, tile) {
        return answer_of(alloc, &EngineAnswer::NoTile { tile });
    }
    let index = DepIndex::of(alloc, rows, cap)?;
    let squares = index.cells_of(tile).collect::<Vec<_>>(alloc)?;
    let text = deps_text(alloc, tile, &squares)?;
    Ok(Answer {
        ending: Ending::Done,
        text: text.into_bytes(),
    })
}

// The numbers of a tile's file, and its note as it stands.
fn show_tile(alloc: Global, tile: TileId, terrain: &[u8], note: &[u8]) -> Result<Answer, Stop>
    ensures says { IfOk result (λ answer. (least greatest : Option ℤ)
        → IsHeightWord (header_in terrain.now).least least → IsHeightWord (header_in terrain.now).greatest greatest
        → Says (shown_reply tile terrain.now note.now least greatest) answer) }
    ensures plain { IfOk result IsPlain }
    ensures memory { OnlyMemory result }
{
    match TileView::read(terrain) {
        Ok(view) => {
            let line = tile_line(alloc, tile, terrain.len() as u64, &view)?;
            let mut text = format!(in alloc; "{line}\n")?.into_bytes();
            text.extend_from_slice(note)?;
            Ok(Answer {
                ending: Ending::Done,
                text,
            })
        }
        Err(refusal) => {
            let cause = tile_refusal_text(alloc, &refusal)?;
            refused(alloc, &cause)
        }
    }
}

// A stored tile's numbers and its note.
fn answer_to_inspect<St: Store>(
    alloc: Global,
    store: &mut St,
    opened: &Opened,
    tile: TileId,
) -> Result<Answer, Stop>
    requires { opened.now.live ≡ true }
    ensures says { (files : Files) (reply : Reply) → St.holds store.old ≡ Some files
        → IsInspected (exists_of opened.now.params.cap opened.now.rows tile) tile files reply
        → IfOk result (Says reply) }
    ensures plain { IfOk result IsPlain }
    ensures same { St.holds store.new ≡ St.holds store.old }
    ensures quiet { St.log store.new ≡ St.log store.old }
    ensures store { OnStore (St.faults store.old) (St.faults store.new) result }
{
    match stored_tile(store, opened, tile) {
        Ok(files) => show_tile(alloc, tile, &files.terrain, &files.note),
        Err(answer) => answer_of(alloc, &answer),
    }
}

// A tile in the form heightmap-1.0.
fn answer_to_heightmap<St: Store>(
    alloc: Global,
    store: &mut St,
    opened: &Opened,
    tile: TileId,
) -> Result<Answer, Stop>
    requires { opened.now.live ≡ true }
    ensures says { (s : State) → HoldsState (St.holds store.old) opened.now s
        → IfOk result (Says (heightmap_reply tile s)) }
    ensures plain { IfOk result IsPlain }
    ensures same { St.holds store.new ≡ St.holds store.old }
    ensures quiet { St.log store.new ≡ St.log store.old }
    ensures store { OnStore (St.faults store.old) (St.faults store.new) result }
{
    match heightmap_tile(alloc, store, opened, tile) {
        Ok(bytes) => Ok(Answer {
            ending: Ending::Done,
            text: bytes,
        }),
        Err(answer) => answer_of(alloc, &answer),
    }
}

// What is told of the surface of a tile, by the bytes of its terrain.
fn tell_surface(
    alloc: Global,
    tile: TileId,
    terrain: &[u8],
    question: &Question,
) -> Result<Answer, Stop>
    requires { IsGoodQuestion tile question.now }
    ensures says { IfOk result (SaysSome (IsSurfaceReply tile question.now terrain.now)) }
    ensures plain { IfOk result IsPlain }
    ensures memory { OnlyMemory result }
{
    match answer(alloc, tile, terrain, question)? {
        SurfaceAnswer::Told(text) => Ok(Answer {
            ending: Ending::Done,
            text: text.into_bytes(),
        }),
        SurfaceAnswer::Refused(cause) => refused(alloc, &cause),
    }
}

// What is told of the surface of a stored tile.
fn answer_to_surface<St: Store>(
    alloc: Global,
    store: &mut St,
    opened: &Opened,
    tile: TileId,
    question: &Question,
) -> Result<Answer, Stop>
    requires live { opened.now.live ≡ true }
    requires good { IsGoodQuestion tile question.now }
    ensures says { (files : Files) → St.holds store.old ≡ Some files → IfOk result
        (SaysSome (IsSurfaceAsked (exists_of opened.now.params.cap opened.now.rows tile) tile question.now files)) }
    ensures plain { IfOk result IsPlain }
    ensures same { St.holds store.new ≡ St.holds store.old }
    ensures quiet { St.log store.new ≡ St.log store.old }
    ensures store { OnStore (St.faults store.old) (St.faults store.new) result }
{
    match stored_tile(store, opened, tile) {
        Ok(files) => tell_surface(alloc, tile, &files.terrain, question),
        Err(answer) => answer_of(alloc, &answer),
    }
}

/// Answers what is asked of an opened database.
pub(crate) fn answer_to_query<St: Store>(
    alloc: Global,
    store: &mut St,
    opened: &Opened,
    query: Query,
) -> Result<Answer, Stop>
    requires live { opened.now.live ≡ true }
    requires good { IsGoodQuery query }
    ensures says { (s : State) (files : Files) (reply : Reply) → HoldsState (St.holds store.old) opened.now s
        → St.holds store.old ≡ Some files → IsReplyTo query s files reply → IfOk result (Says reply) }
    ensures has { (s : State) (files : Files) → HoldsState (St.holds store.old) opened.now s
        → St.holds store.old ≡ Some files → IfOk result (λ answer. HasReply query s files) }
    ensures plain { IfOk result IsPlain }
    ensures same { St.holds store.new ≡ St.holds store.old }
    ensures quiet { St.log store.new ≡ St.log store.old }
    ensures store { OnStore (St.faults store.old) (St.faults store.new) result }
{
    match query {
        Query::List => answer_to_list(alloc, opened),
        Query::Inspect { tile } => answer_to_inspect(alloc, store, opened, tile),
        Query::Deps { tile } => answer_to_deps(alloc, opened, tile),
        Query::Heightmap { tile } => answer_to_heightmap(alloc, store, opened, tile),
        Query::Surface { tile, question } => {
            answer_to_surface(alloc, store, opened, tile, &question)
        }
    }
}
