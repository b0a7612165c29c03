// How a run ended.
ghost use Rattle.std.specs.Prelude.{◌≡◌};
ghost use Rattle.top_reply.specs.Status.{stop_status};
ghost use Rattle.terrain_top.specs.Says.{status_by};

use crate::answer::Ending;
use top_reply::{Status, Stop};

// The status of a run that was stopped.
pub(crate) fn status_of_stop(stop: Stop) -> Status
    ensures { result ≡ stop_status stop }
{
    match stop {
        Stop::Input => Status::InputFault,
        Stop::Store => Status::StoreFault,
        Stop::Output => Status::OutputFault,
        Stop::NoMemory => Status::NoMemory,
    }
}

// The status of a run of a command that ended so.
pub(crate) fn status_of(ended: Result<Ending, Stop>) -> Status
    ensures { result ≡ status_by ended }
{
    match ended {
        Ok(Ending::Done) => Status::Done,
        Ok(Ending::Refused) => Status::Refused,
        Ok(Ending::Found) => Status::Found,
        Err(stop) => status_of_stop(stop),
    }
}
