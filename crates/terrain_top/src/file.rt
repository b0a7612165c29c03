// A file outside, as the commands that read one get it.
ghost use Rattle.std.specs.Prelude.{◌≡◌, ℕ, List, Option, IfOk, IfSome};
ghost use Rattle.std.specs.FinMap as map;
ghost use Rattle.terrain_base.specs.Library.{Fetches};
ghost use Rattle.terrain_base.specs.Reading.{FetchesBy};
ghost use Rattle.dted_cell.specs.Facts.{AreFacts};
ghost use Rattle.top_reply.specs.File.{found_in};
ghost use Rattle.terrain_top.specs.Effects.{Asks};
ghost use Rattle.terrain_top.specs.Meant.{file_meant};

use dted_cell::{CellFacts, FactsReading};
use std::alloc::Global;
use terrain_base::{DeviceFault, Fetched, Library, NoMemory, ReadBy};
use top_reply::Stop;

/// A file that was asked for.
#[derive(Debug, Drop)]
pub(crate) enum FileRead {
    /// Its bytes, no more than the limit.
    Bytes(Vec<u8>),
    /// The cause why there are none: it is absent or too long.
    NoFile(String),
}

// Why a command stops at a library.
fn stopped(fault: DeviceFault) -> Stop
    ensures input { fault ≡ DeviceFault.Failed → result ≡ Stop.Input }
    ensures memory { fault ≡ DeviceFault.NoMemory → result ≡ Stop.NoMemory }
{
    match fault {
        DeviceFault::Failed => Stop::Input,
        DeviceFault::NoMemory => Stop::NoMemory,
    }
}

// The file outside.
fn fetch<Li: Library>(files: &mut Li, file: &str, limit: usize) -> Result<Fetched, Stop>
    ensures fetched { IfOk result (λ fetched. IfSome (Li.holds files.old) (λ held. Fetches fetched
        (map.get held file.now) limit)) }
    ensures asks { Asks Li.holds Li.faults files.old files.new result }
{
    match files.fetch(file, limit) {
        Ok(fetched) => Ok(fetched),
        Err(fault) => Err(stopped(fault)),
    }
}

/// The cell of a file outside in short, or the file.
pub(crate) fn fetch_facts<Li: Library>(
    alloc: Global,
    files: &mut Li,
    file: &str,
    limit: usize,
) -> Result<ReadBy<CellFacts, Fetched>, Stop>
    ensures fetched { IfOk result (λ fetched. IfSome (Li.holds files.old)
        (λ held. FetchesBy AreFacts fetched (map.get held file.now) limit)) }
    ensures asks { Asks Li.holds Li.faults files.old files.new result }
{
    match files.fetch_by(file, limit, &FactsReading { alloc }) {
        Ok(fetched) => Ok(fetched),
        Err(fault) => Err(stopped(fault)),
    }
}

/// The bytes that were fetched of a file, or why there are none: it is absent or has more bytes than the limit.
pub(crate) fn file_read(
    alloc: Global,
    file: &str,
    limit: usize,
    fetched: Fetched,
) -> Result<FileRead, NoMemory>
    ensures read { IfOk result (λ read. (held : Option (List ℕ)) → Fetches fetched held limit
        → file_meant read ≡ found_in file.now limit held) }
{
    match fetched {
        Fetched::Bytes(bytes) => Ok(FileRead::Bytes(bytes)),
        Fetched::Absent => Ok(FileRead::NoFile(format!(in alloc; "F1 absent {file}")?)),
        Fetched::TooLong => {
            let cause = format!(in alloc; "F2 too long {file} limit {limit}")?;
            Ok(FileRead::NoFile(cause))
        }
    }
}

/// The bytes of a file, or why there are none: it is absent or has more bytes than the limit.
pub(crate) fn open_file<Li: Library>(
    alloc: Global,
    files: &mut Li,
    file: &str,
    limit: usize,
) -> Result<FileRead, Stop>
    ensures read { IfOk result (λ read. IfSome (Li.holds files.old)
        (λ held. file_meant read ≡ found_in file.now limit (map.get held file.now))) }
    ensures asks { Asks Li.holds Li.faults files.old files.new result }
{
    let fetched = fetch(files, file, limit)?;
    Ok(file_read(alloc, file, limit, fetched)?)
}
