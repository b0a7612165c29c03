// What a command comes to.
ghost use Rattle.std.specs.Prelude.{◌≡◌, IfErr, IfOk};
ghost use Rattle.top_reply.specs.Reply.{done_reply, refused_reply};
ghost use Rattle.terrain_top.specs.Says.{IsPlain, Says};
ghost use Rattle.terrain_top.specs.Effects.{OnlyMemory};

use std::alloc::Global;
use top_reply::Stop;

/// How a command ended that was not stopped.
#[derive(Clone, Copy, Debug, PartialEq, Eq)]
pub(crate) enum Ending {
    /// The command is done.
    Done,
    /// The command, or some line of a script, is refused.
    Refused,
    /// The command found something amiss.
    Found,
}

/// The ending of a command that was not stopped, and what is printed of it last: bytes, since a stored note is
/// printed as it stands.
#[derive(Debug, Drop)]
pub(crate) struct Answer {
    pub(crate) ending: Ending,
    pub(crate) text: Vec<u8>,
}

/// The answer of a command that is done, by its line.
pub(crate) fn done(alloc: Global, line: &str) -> Result<Answer, Stop>
    ensures says { IfOk result (Says (done_reply line.now)) }
    ensures plain { IfOk result IsPlain }
    ensures memory { OnlyMemory result }
{
    let text = format!(in alloc; "{line}\n")?;
    Ok(Answer {
        ending: Ending::Done,
        text: text.into_bytes(),
    })
}

/// The answer that a refusal is, by its cause.
pub(crate) fn refused(alloc: Global, cause: &str) -> Result<Answer, Stop>
    ensures says { IfOk result (Says (refused_reply cause.now)) }
    ensures plain { IfOk result IsPlain }
    ensures memory { OnlyMemory result }
{
    let text = format!(in alloc; "refused {cause}\n")?;
    Ok(Answer {
        ending: Ending::Refused,
        text: text.into_bytes(),
    })
}
