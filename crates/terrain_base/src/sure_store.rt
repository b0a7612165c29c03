// A store in memory that never fails.
ghost use Rattle.std.specs.Prelude.{◌≡◌, ◌∷◌, ◌++◌, Some, [], OnOk, OnErr, option_map};
ghost use Rattle.std.specs.FinMap as map;
ghost use Rattle.terrain_base.specs.SureStore.{files_of};

use crate::{Change, DeviceFault, Name, NoMemory, Store};
use std::alloc::Global;
use std::collections::BTreeMap;

/// A store in memory. It tells what it holds and its log, and its count of faults is always 0: of errors it
/// answers `NoMemory` alone.
#[derive(Drop)]
pub struct SureStore {
    alloc: Global,
    files: BTreeMap<Name, Vec<u8>>,
    log: Vec<Change>,
}

impl SureStore {
    /// A store that holds nothing, with an empty log. Takes no memory.
    pub fn new(alloc: Global) -> SureStore
        ensures empty { ⟦<SureStore as Store>⟧.holds result ≡ Some map.empty }
        ensures unlogged { ⟦<SureStore as Store>⟧.log result ≡ Some [] }
        ensures faultless { ⟦<SureStore as Store>⟧.faults result ≡ 0 }
    {
        SureStore {
            alloc,
            files: BTreeMap::new(alloc),
            log: Vec::new(alloc),
        }
    }

    /// The puts and deletes so far, in their order.
    pub fn log(&self) -> &[Change]
        ensures { ⟦<SureStore as Store>⟧.log self.now ≡ Some result.now }
    {
        &self.log
    }

    // Adds a change to the log and does not do it.
    pub(crate) fn note(&mut self, change: Change) -> Result<(), NoMemory>
        ensures same { ⟦<SureStore as Store>⟧.holds self.new ≡ ⟦<SureStore as Store>⟧.holds self.old }
        ensures ok { OnOk result (⟦<SureStore as Store>⟧.log self.new
            ≡ option_map (λ log. log ++ change ∷ []) (⟦<SureStore as Store>⟧.log self.old)) }
        ensures err { OnErr result (⟦<SureStore as Store>⟧.log self.new ≡ ⟦<SureStore as Store>⟧.log self.old) }
    {
        self.log.push(change)?;
        Ok(())
    }
}

impl Store for SureStore {
    ghost holds = { λ store. Some (files_of store.files.entries) };

    ghost log = { λ store. Some store.log.items };

    ghost faults = { λ store. 0 };

    fn get(&mut self, name: &Name) -> Result<Option<Vec<u8>>, DeviceFault> {
        match self.files.get(name) {
            None => Ok(None),
            Some(bytes) => Ok(Some(bytes.to_vec(self.alloc)?)),
        }
    }

    fn put(&mut self, name: &Name, bytes: &[u8]) -> Result<(), DeviceFault> {
        let copy = bytes.to_vec(self.alloc)?;
        self.log.push(Change::Put(*name))?;
        self.files.insert(*name, copy)?;
        Ok(())
    }

    fn delete(&mut self, name: &Name) -> Result<(), DeviceFault> {
        self.log.push(Change::Delete(*name))?;
        self.files.remove(name);
        Ok(())
    }

    fn names(&mut self) -> Result<Vec<Name>, DeviceFault> {
        Ok(self.files.keys().copied().collect(self.alloc)?)
    }
}
