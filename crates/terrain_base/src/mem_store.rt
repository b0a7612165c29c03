// A store in memory that fails at the calls of a list.
ghost use Rattle.std.specs.Prelude.{◌≡◌, ◌↔◌, Some, [], IfOk, IfSome, IsTrue, IsErrOf, is_some};
ghost use Rattle.std.specs.FinMap as map;
ghost use Rattle.terrain_base.specs.Cause.{HasCause};
ghost use Rattle.terrain_base.specs.Fail.{FailsAs, fail_at, failed_of, call_after};
ghost use Rattle.terrain_base.specs.MemStore.{store_fails, store_calls};
ghost use Rattle.terrain_base.specs.Step.{Write, Erase, Does, held_after, items_of};

use crate::fail::count_call;
use crate::{Change, DeviceFault, Fail, Name, NoMemory, Store, SureStore};
use std::alloc::Global;

/// A store in memory whose calls fail where a list says so: a failing put or delete that takes effect is done whole,
/// any other not at all. It tells what it holds and its log. Its count of faults is the number of calls of the list
/// that were made.
#[derive(Drop)]
pub struct MemStore {
    inner: SureStore,
    fails: Vec<Fail>,
    calls: u64,
}

impl MemStore {
    /// A store that holds nothing, with an empty log and the calls that will fail. The first entry for a call counts.
    pub fn new(alloc: Global, fails: &[Fail]) -> Result<MemStore, NoMemory>
        ensures holds { IfOk result (λ store. ⟦<MemStore as Store>⟧.holds store ≡ Some map.empty) }
        ensures log { IfOk result (λ store. ⟦<MemStore as Store>⟧.log store ≡ Some []) }
        ensures faults { IfOk result (λ store. ⟦<MemStore as Store>⟧.faults store ≡ 0) }
        ensures fails { IfOk result (λ store. store_fails store ≡ fails.now) }
        ensures calls { IfOk result (λ store. store_calls store ≡ 0) }
    {
        Ok(MemStore {
            inner: SureStore::new(alloc),
            fails: fails.to_vec(alloc)?,
            calls: 0,
        })
    }

    /// The puts and deletes so far, in their order; those that failed are among them.
    pub fn log(&self) -> &[Change]
        ensures { ⟦<MemStore as Store>⟧.log self.now ≡ Some result.now }
    {
        self.inner.log()
    }
}

impl Store for MemStore {
    ghost holds = { λ store. ⟦<SureStore as Store>⟧.holds store.inner };

    ghost log = { λ store. ⟦<SureStore as Store>⟧.log store.inner };

    ghost faults = { λ store. failed_of store.fails.items store.calls };

    fn get(&mut self, name: &Name) -> Result<Option<Vec<u8>>, DeviceFault>
        ensures found { IfOk result (λ found.
            IfSome (⟦<MemStore as Store>⟧.holds self.old) (λ files. items_of found ≡ map.get files name.now)) }
        ensures same { ⟦<MemStore as Store>⟧.holds self.new ≡ ⟦<MemStore as Store>⟧.holds self.old }
        ensures quiet { ⟦<MemStore as Store>⟧.log self.new ≡ ⟦<MemStore as Store>⟧.log self.old }
        ensures cause { HasCause (⟦<MemStore as Store>⟧.faults self.old) (⟦<MemStore as Store>⟧.faults self.new) result }
        // It fails exactly at the calls of the list.
        ensures failing { IsErrOf result DeviceFault.Failed
            ↔ IsTrue (is_some (fail_at (store_fails self.old) (store_calls self.old))) }
        ensures fails { store_fails self.new ≡ store_fails self.old }
        ensures calls { store_calls self.new ≡ call_after (store_calls self.old) }
    {
        match count_call(&self.fails, &mut self.calls) {
            None => self.inner.get(name),
            Some(_) => Err(DeviceFault::Failed),
        }
    }

    fn put(&mut self, name: &Name, bytes: &[u8]) -> Result<(), DeviceFault>
        ensures does { Does (Write name.now bytes.now) (⟦<MemStore as Store>⟧.holds self.old)
            (⟦<MemStore as Store>⟧.log self.old) (⟦<MemStore as Store>⟧.holds self.new)
            (⟦<MemStore as Store>⟧.log self.new) result }
        ensures cause { HasCause (⟦<MemStore as Store>⟧.faults self.old) (⟦<MemStore as Store>⟧.faults self.new) result }
        // It fails exactly at the calls of the list, and then does all or nothing.
        ensures failing { FailsAs (fail_at (store_fails self.old) (store_calls self.old))
            (held_after (Write name.now bytes.now) (⟦<MemStore as Store>⟧.holds self.old))
            (⟦<MemStore as Store>⟧.holds self.old) (⟦<MemStore as Store>⟧.holds self.new) result }
        ensures fails { store_fails self.new ≡ store_fails self.old }
        ensures calls { store_calls self.new ≡ call_after (store_calls self.old) }
    {
        match count_call(&self.fails, &mut self.calls) {
            None => self.inner.put(name, bytes),
            Some(Fail { applied: true, .. }) => {
                self.inner.put(name, bytes)?;
                Err(DeviceFault::Failed)
            }
            Some(Fail { applied: false, .. }) => {
                self.inner.note(Change::Put(*name))?;
                Err(DeviceFault::Failed)
            }
        }
    }

    fn delete(&mut self, name: &Name) -> Result<(), DeviceFault>
        ensures does { Does (Erase name.now) (⟦<MemStore as Store>⟧.holds self.old) (⟦<MemStore as Store>⟧.log self.old)
            (⟦<MemStore as Store>⟧.holds self.new) (⟦<MemStore as Store>⟧.log self.new) result }
        ensures cause { HasCause (⟦<MemStore as Store>⟧.faults self.old) (⟦<MemStore as Store>⟧.faults self.new) result }
        // It fails exactly at the calls of the list, and then does all or nothing.
        ensures failing { FailsAs (fail_at (store_fails self.old) (store_calls self.old))
            (held_after (Erase name.now) (⟦<MemStore as Store>⟧.holds self.old)) (⟦<MemStore as Store>⟧.holds self.old)
            (⟦<MemStore as Store>⟧.holds self.new) result }
        ensures fails { store_fails self.new ≡ store_fails self.old }
        ensures calls { store_calls self.new ≡ call_after (store_calls self.old) }
    {
        match count_call(&self.fails, &mut self.calls) {
            None => self.inner.delete(name),
            Some(Fail { applied: true, .. }) => {
                self.inner.delete(name)?;
                Err(DeviceFault::Failed)
            }
            Some(Fail { applied: false, .. }) => {
                self.inner.note(Change::Delete(*name))?;
                Err(DeviceFault::Failed)
            }
        }
    }

    fn names(&mut self) -> Result<Vec<Name>, DeviceFault>
        ensures names { IfOk result (λ names.
            IfSome (⟦<MemStore as Store>⟧.holds self.old) (λ files. names.items ≡ map.keys files)) }
        ensures same { ⟦<MemStore as Store>⟧.holds self.new ≡ ⟦<MemStore as Store>⟧.holds self.old }
        ensures quiet { ⟦<MemStore as Store>⟧.log self.new ≡ ⟦<MemStore as Store>⟧.log self.old }
        ensures cause { HasCause (⟦<MemStore as Store>⟧.faults self.old) (⟦<MemStore as Store>⟧.faults self.new) result }
        // It fails exactly at the calls of the list.
        ensures failing { IsErrOf result DeviceFault.Failed
            ↔ IsTrue (is_some (fail_at (store_fails self.old) (store_calls self.old))) }
        ensures fails { store_fails self.new ≡ store_fails self.old }
        ensures calls { store_calls self.new ≡ call_after (store_calls self.old) }
    {
        match count_call(&self.fails, &mut self.calls) {
            None => self.inner.names(),
            Some(_) => Err(DeviceFault::Failed),
        }
    }
}
