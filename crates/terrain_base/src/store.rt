// A store of files by name.
ghost use Rattle.std.specs.Prelude.{◌≡◌, ℕ, List, Option, IfOk, IfSome};
ghost use Rattle.std.specs.FinMap as map;
ghost use Rattle.terrain_base.specs.Step.{Files, Write, Erase, Does, items_of};
ghost use Rattle.terrain_base.specs.Cause.{HasCause};
ghost use Rattle.terrain_base.specs.Reading.{GetsBy};
ghost use Rattle.terrain_base.specs.declared.store.Change.{Change};

use crate::reading::find_in;
use crate::{DeviceFault, Name, ReadBy, Reading};

/// A change of a store, without the bytes.
#[derive(Clone, Copy, Debug, PartialEq, Eq)]
pub enum Change {
    Put(Name),
    Delete(Name),
}

/// What holds files by name: a folder, or an object in memory. `Failed` is answered only where the count of
/// faults rose.
pub trait Store {
    /// The files held, where the store tells them. One in memory does, one over a real device does not.
    ghost holds: { Self → Option Files };

    /// The puts and deletes so far in their order, where the store tells them.
    ghost log: { Self → Option (List Change) };

    /// How many faults there were. It never falls.
    ghost faults: { Self → ℕ };

    /// The bytes held under the name. `None` exactly where it is not held. Changes nothing held and adds nothing
    /// to the log, whatever it answers.
    fn get(&mut self, name: &Name) -> Result<Option<Vec<u8>>, DeviceFault>
        ensures found { IfOk result (λ found.
            IfSome (holds self.old) (λ files. items_of found ≡ map.get files name.now)) }
        ensures same { holds self.new ≡ holds self.old }
        ensures quiet { log self.new ≡ log self.old }
        ensures cause { HasCause (faults self.old) (faults self.new) result };

    /// Holds the bytes under the name, and leaves every other name. After an error this one name is as before or
    /// holds the new bytes. It is in the log, whatever it answers; only at `NoMemory` it may be missing.
    fn put(&mut self, name: &Name, bytes: &[u8]) -> Result<(), DeviceFault>
        ensures does { Does (Write name.now bytes.now) (holds self.old) (log self.old) (holds self.new)
            (log self.new) result }
        ensures cause { HasCause (faults self.old) (faults self.new) result };

    /// Takes the name away, held or not, and leaves every other name. After an error this one name is as before or
    /// absent. It is in the log, whatever it answers; only at `NoMemory` it may be missing.
    fn delete(&mut self, name: &Name) -> Result<(), DeviceFault>
        ensures does { Does (Erase name.now) (holds self.old) (log self.old) (holds self.new) (log self.new) result }
        ensures cause { HasCause (faults self.old) (faults self.new) result };

    /// The names held, in ascending order of their bytes. Changes nothing held and adds nothing to the log,
    /// whatever it answers.
    fn names(&mut self) -> Result<Vec<Name>, DeviceFault>
        ensures names { IfOk result (λ names. IfSome (holds self.old) (λ files. names.items ≡ map.keys files)) }
        ensures same { holds self.new ≡ holds self.old }
        ensures quiet { log self.new ≡ log self.old }
        ensures cause { HasCause (faults self.old) (faults self.new) result };

    /// What the reading finds in the bytes held under the name, or all of them. `None` exactly where it is not held.
    /// Changes nothing held and adds nothing to the log, whatever it answers.
    fn get_by<G: Reading>(
        &mut self,
        name: &Name,
        reading: &G,
    ) -> Result<Option<ReadBy<G::Found, Vec<u8>>>, DeviceFault>
        ensures found { IfOk result (λ found. IfSome (holds self.old)
            (λ files. GetsBy (G.tells reading.now) found (map.get files name.now))) }
        ensures same { holds self.new ≡ holds self.old }
        ensures quiet { log self.new ≡ log self.old }
        ensures cause { HasCause (faults self.old) (faults self.new) result }
    {
        let Some(bytes) = self.get(name)? else {
            return Ok(None);
        };
        if let Some(found) = find_in(reading, &bytes) {
            return Ok(Some(ReadBy::Found(found)));
        }
        Ok(Some(ReadBy::Whole(bytes)))
    }
}
