// A sink in memory that fails at the calls of a list.
ghost use Rattle.std.specs.Prelude.{◌≡◌, ◌++◌, Some, [], IfOk, option_map};
ghost use Rattle.terrain_base.specs.Cause.{HasCause};
ghost use Rattle.terrain_base.specs.Fail.{FailsAs, fail_at, failed_of, call_after};
ghost use Rattle.terrain_base.specs.MemSink.{sink_fails, sink_calls};
ghost use Rattle.terrain_base.specs.Sink.{Takes};

use crate::fail::count_call;
use crate::{DeviceFault, Fail, NoMemory, Sink, SureSink};
use std::alloc::Global;

/// A sink in memory whose puts fail where a list says so: a failing put that takes effect takes all
/// its bytes, any other none. It tells what it took. Its count of faults is the number of calls of
/// the list that were made.
#[derive(Drop)]
pub struct MemSink {
    inner: SureSink,
    fails: Vec<Fail>,
    calls: u64,
}

impl MemSink {
    /// A sink that took nothing yet, with the calls that will fail. The first entry for a call
    /// counts.
    pub fn new(alloc: Global, fails: &[Fail]) -> Result<MemSink, NoMemory>
        ensures taken { IfOk result (λ sink. ⟦<MemSink as Sink>⟧.taken sink ≡ Some []) }
        ensures faults { IfOk result (λ sink. ⟦<MemSink as Sink>⟧.faults sink ≡ 0) }
        ensures fails { IfOk result (λ sink. sink_fails sink ≡ fails.now) }
        ensures calls { IfOk result (λ sink. sink_calls sink ≡ 0) }
    {
        Ok(MemSink {
            inner: SureSink::new(alloc),
            fails: fails.to_vec(alloc)?,
            calls: 0,
        })
    }

    /// The bytes that it took so far.
    pub fn taken(&self) -> &[u8]
        ensures { ⟦<MemSink as Sink>⟧.taken self.now ≡ Some result.now }
    {
        self.inner.taken()
    }
}

impl Sink for MemSink {
    ghost taken = { λ s. ⟦<SureSink as Sink>⟧.taken s.inner };

    ghost faults = { λ s. failed_of s.fails.items s.calls };

    fn put(&mut self, bytes: &[u8]) -> Result<(), DeviceFault>
        ensures takes { Takes bytes.now (⟦<MemSink as Sink>⟧.taken self.old)
            (⟦<MemSink as Sink>⟧.taken self.new) result }
        ensures cause { HasCause (⟦<MemSink as Sink>⟧.faults self.old) (⟦<MemSink as Sink>⟧.faults self.new) result }
        // It fails exactly at the calls of the list, and then takes all or nothing.
        ensures failing { FailsAs (fail_at (sink_fails self.old) (sink_calls self.old))
            (option_map (λ taken. taken ++ bytes.now) (⟦<MemSink as Sink>⟧.taken self.old))
            (⟦<MemSink as Sink>⟧.taken self.old) (⟦<MemSink as Sink>⟧.taken self.new) result }
        ensures fails { sink_fails self.new ≡ sink_fails self.old }
        ensures calls { sink_calls self.new ≡ call_after (sink_calls self.old) }
    {
        match count_call(&self.fails, &mut self.calls) {
            None => self.inner.put(bytes),
            Some(Fail { applied: true, .. }) => {
                self.inner.put(bytes)?;
                Err(DeviceFault::Failed)
            }
            Some(Fail { applied: false, .. }) => Err(DeviceFault::Failed),
        }
    }
}
