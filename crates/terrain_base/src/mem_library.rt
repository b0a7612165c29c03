// A library in memory that fails at the calls of a list.
ghost use Rattle.std.specs.Prelude.{◌≡◌, ◌↔◌, IfOk, IfSome, IsTrue, IsErrOf, OnOk, OnErr, is_some, option_map};
ghost use Rattle.std.specs.FinMap as map;
ghost use Rattle.terrain_base.specs.Cause.{HasCause};
ghost use Rattle.terrain_base.specs.Fail.{fail_at, failed_of, call_after};
ghost use Rattle.terrain_base.specs.Library.{Fetches};
ghost use Rattle.terrain_base.specs.MemLibrary.{library_fails, library_calls};

use crate::fail::count_call;
use crate::{DeviceFault, Fail, Fetched, Library, NoMemory, SureLibrary};
use std::alloc::Global;

/// A library in memory whose fetches fail where a list says so. It tells what it holds. Its count
/// of faults is the number of calls of the list that were made.
#[derive(Drop)]
pub struct MemLibrary {
    inner: SureLibrary,
    fails: Vec<Fail>,
    calls: u64,
}

impl MemLibrary {
    /// A library that holds nothing, with the calls that will fail. The first entry for a call
    /// counts.
    pub fn new(alloc: Global, fails: &[Fail]) -> Result<MemLibrary, NoMemory>
        ensures holds { IfOk result (λ library. ⟦<MemLibrary as Library>⟧.holds library ≡ Some map.empty) }
        ensures faults { IfOk result (λ library. ⟦<MemLibrary as Library>⟧.faults library ≡ 0) }
        ensures fails { IfOk result (λ library. library_fails library ≡ fails.now) }
        ensures calls { IfOk result (λ library. library_calls library ≡ 0) }
    {
        Ok(MemLibrary {
            inner: SureLibrary::new(alloc),
            fails: fails.to_vec(alloc)?,
            calls: 0,
        })
    }

    /// Holds the bytes under the name, in place of what it held there. Want of memory changes
    /// nothing.
    pub fn hold(&mut self, name: &str, bytes: &[u8]) -> Result<(), NoMemory>
        ensures ok { OnOk result (⟦<MemLibrary as Library>⟧.holds self.new
            ≡ option_map (λ files. map.insert files name.now bytes.now) (⟦<MemLibrary as Library>⟧.holds self.old)) }
        ensures err { OnErr result (⟦<MemLibrary as Library>⟧.holds self.new
            ≡ ⟦<MemLibrary as Library>⟧.holds self.old) }
        ensures faults { ⟦<MemLibrary as Library>⟧.faults self.new ≡ ⟦<MemLibrary as Library>⟧.faults self.old }
        ensures fails { library_fails self.new ≡ library_fails self.old }
        ensures calls { library_calls self.new ≡ library_calls self.old }
    {
        self.inner.hold(name, bytes)
    }
}

impl Library for MemLibrary {
    ghost holds = { λ s. ⟦<SureLibrary as Library>⟧.holds s.inner };

    ghost faults = { λ s. failed_of s.fails.items s.calls };

    fn fetch(&mut self, name: &str, limit: usize) -> Result<Fetched, DeviceFault>
        ensures fetched { IfOk result (λ fetched.
            IfSome (⟦<MemLibrary as Library>⟧.holds self.old)
            (λ files. Fetches fetched (map.get files name.now) limit)) }
        ensures same { ⟦<MemLibrary as Library>⟧.holds self.new ≡ ⟦<MemLibrary as Library>⟧.holds self.old }
        ensures cause { HasCause (⟦<MemLibrary as Library>⟧.faults self.old) (⟦<MemLibrary as Library>⟧.faults self.new) result }
        // It fails exactly at the calls of the list.
        ensures failing { IsErrOf result DeviceFault.Failed
            ↔ IsTrue (is_some (fail_at (library_fails self.old) (library_calls self.old))) }
        ensures fails { library_fails self.new ≡ library_fails self.old }
        ensures calls { library_calls self.new ≡ call_after (library_calls self.old) }
    {
        match count_call(&self.fails, &mut self.calls) {
            None => self.inner.fetch(name, limit),
            Some(_) => Err(DeviceFault::Failed),
        }
    }
}
