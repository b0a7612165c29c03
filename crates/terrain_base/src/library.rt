// A library: files outside, by their names.
ghost use Rattle.std.specs.Prelude.{◌≡◌, ℕ, Option, IfOk, IfSome};
ghost use Rattle.std.specs.FinMap as map;
ghost use Rattle.terrain_base.specs.Cause.{HasCause};
ghost use Rattle.terrain_base.specs.Library.{LibraryFiles, Fetches};
ghost use Rattle.terrain_base.specs.Reading.{FetchesBy};

use crate::reading::find_in;
use crate::{DeviceFault, ReadBy, Reading};

/// What a fetch found.
#[derive(Debug, Drop)]
pub enum Fetched {
    /// All the bytes of the file.
    Bytes(Vec<u8>),
    /// No file has the name.
    Absent,
    /// The file has more bytes than the limit.
    TooLong,
}

/// Files that are read whole, by name.
pub trait Library {
    /// What it holds, where it tells.
    ghost holds: { Self → Option LibraryFiles };

    /// How often it failed.
    ghost faults: { Self → ℕ };

    /// All the bytes under the name, if it is held with at most `limit` bytes. A fetch changes
    /// nothing that is held, whatever it answers.
    fn fetch(&mut self, name: &str, limit: usize) -> Result<Fetched, DeviceFault>
        ensures fetched { IfOk result (λ fetched.
            IfSome (holds self.old) (λ files. Fetches fetched (map.get files name.now) limit)) }
        ensures same { holds self.new ≡ holds self.old }
        ensures cause { HasCause (faults self.old) (faults self.new) result };

    /// What the reading finds in the file under the name, if it is held with at most `limit` bytes, or what `fetch`
    /// gives. It changes nothing that is held, whatever it answers.
    fn fetch_by<G: Reading>(
        &mut self,
        name: &str,
        limit: usize,
        reading: &G,
    ) -> Result<ReadBy<G::Found, Fetched>, DeviceFault>
        ensures fetched { IfOk result (λ fetched. IfSome (holds self.old)
            (λ files. FetchesBy (G.tells reading.now) fetched (map.get files name.now) limit)) }
        ensures same { holds self.new ≡ holds self.old }
        ensures cause { HasCause (faults self.old) (faults self.new) result }
    {
        let fetched = self.fetch(name, limit)?;
        if let Fetched::Bytes(bytes) = &fetched {
            if let Some(found) = find_in(reading, bytes) {
                return Ok(ReadBy::Found(found));
            }
        }
        Ok(ReadBy::Whole(fetched))
    }
}
