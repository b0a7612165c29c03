// The one place that prints.
ghost use Rattle.std.specs.Prelude.{◌≡◌, ◌⊎◌, ◌++◌, IfErr, OnErr, OnOk, option_map};
ghost use Rattle.terrain_base.specs.Sink.{FrontTaken};
ghost use Rattle.terrain_top.specs.Effects.{StopHasCause};

use terrain_base::{DeviceFault, Sink};
use top_reply::Stop;

/// Puts a text on the sink.
pub(crate) fn print<Si: Sink>(out: &mut Si, text: &[u8]) -> Result<(), Stop>
    ensures all { OnOk result (Si.taken out.new ≡ option_map (λ taken. taken ++ text.now) (Si.taken out.old)) }
    ensures front { OnErr result (FrontTaken (Si.taken out.old) text.now (Si.taken out.new)) }
    ensures sink { StopHasCause Stop.Output (Si.faults out.old) (Si.faults out.new) result }
    ensures only { IfErr result (λ stop. (stop ≡ Stop.Output) ⊎ (stop ≡ Stop.NoMemory)) }
{
    match out.put(text) {
        Ok(()) => Ok(()),
        Err(DeviceFault::Failed) => Err(Stop::Output),
        Err(DeviceFault::NoMemory) => Err(Stop::NoMemory),
    }
}
