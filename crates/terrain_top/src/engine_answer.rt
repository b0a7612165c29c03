// Answers of the engine in place of Ok.
ghost use Rattle.std.specs.Prelude.{◌≡◌, ◌⊎◌, IfErr, IfOk};
ghost use Rattle.database.specs.declared.answer.EngineAnswer.TheVariants as engine;
ghost use Rattle.terrain_top.specs.Effects.{StopsBy};
ghost use Rattle.terrain_top.specs.Says.{IsPlain, IsTold};

use crate::answer::{Answer, refused};
use database::EngineAnswer;
use db_report::refusal_text;
use std::alloc::Global;
use top_reply::Stop;

// The stop that an answer is which refuses nothing.
fn stop_of(answer: &EngineAnswer) -> Stop
    ensures { StopsBy answer.now result }
{
    match answer {
        EngineAnswer::StoreFault => Stop::Store,
        _ => Stop::NoMemory,
    }
}

/// What an answer in place of Ok comes to: a refusal, or a stop by the store or for want of memory.
pub(crate) fn answer_of(alloc: Global, answer: &EngineAnswer) -> Result<Answer, Stop>
    ensures says { IfOk result (IsTold answer.now) }
    ensures plain { IfOk result IsPlain }
    ensures stops { IfErr result (StopsBy answer.now) }
{
    match refusal_text(alloc, answer)? {
        Some(cause) => refused(alloc, &cause),
        None => Err(stop_of(answer)),
    }
}
