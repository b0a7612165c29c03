// A sink in memory that never fails.
ghost use Rattle.std.specs.Prelude.{◌≡◌, Some, []};

use crate::{DeviceFault, Sink};
use std::alloc::Global;

/// A sink in memory. It tells what it took, and its count of faults is always 0.
#[derive(Drop)]
pub struct SureSink {
    taken: Vec<u8>,
}

impl SureSink {
    /// A sink that took nothing yet.
    pub fn new(alloc: Global) -> SureSink
        ensures { ⟦<SureSink as Sink>⟧.taken result ≡ Some [] }
    {
        SureSink {
            taken: Vec::new(alloc),
        }
    }

    /// The bytes that it took so far.
    pub fn taken(&self) -> &[u8]
        ensures { ⟦<SureSink as Sink>⟧.taken self.now ≡ Some result.now }
    {
        &self.taken
    }
}

impl Sink for SureSink {
    ghost taken = { λ s. Some s.taken.items };

    ghost faults = { λ _. 0 };

    fn put(&mut self, bytes: &[u8]) -> Result<(), DeviceFault> {
        self.taken.extend_from_slice(bytes)?;
        Ok(())
    }
}
