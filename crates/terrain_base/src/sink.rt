// A sink: bytes go out and do not come back.
ghost use Rattle.std.specs.Prelude.{◌≡◌, ℕ, List, Option};
ghost use Rattle.terrain_base.specs.Cause.{HasCause};
ghost use Rattle.terrain_base.specs.Sink.{Takes};

use crate::DeviceFault;

/// Where printed text goes.
pub trait Sink {
    /// The bytes that it took so far, where it tells.
    ghost taken: { Self → Option (List ℕ) };

    /// How often it failed.
    ghost faults: { Self → ℕ };

    /// Takes the bytes. After Ok they follow what was taken; after an error some first of them do.
    fn put(&mut self, bytes: &[u8]) -> Result<(), DeviceFault>
        ensures takes { Takes bytes.now (taken self.old) (taken self.new) result }
        ensures cause { HasCause (faults self.old) (faults self.new) result };
}
