// The line of a trial.
ghost use Rattle.std.specs.Prelude.{◌≡◌, IfOk, string_bytes};
ghost use Rattle.db_report.specs.Trial.{trial_line_of};

use std::alloc::Global;
use terrain_base::NoMemory;

/// What a trial came to.
#[derive(Clone, Copy, Debug, PartialEq, Eq)]
pub struct TrialReport {
    /// How many commands were generated.
    pub count: u8,
    /// The number that they were generated from.
    pub number: u64,
    /// How many of them were accepted.
    pub accepted: u64,
    /// How many of them were refused.
    pub refused: u64,
    /// How many cells there are at the end.
    pub cells: u64,
    /// How many tiles there are at the end.
    pub tiles: u64,
    /// The sum of the lengths of all files at the end.
    pub bytes: u64,
    /// The same of a database that was built from scratch over the cells at the end.
    pub scratch: u64,
}

/// What is printed of a trial, without the line feed.
pub fn trial_line(alloc: Global, report: &TrialReport) -> Result<String, NoMemory>
    ensures { IfOk result (λ line. string_bytes line ≡ trial_line_of report.now) }
{
    let TrialReport {
        count,
        number,
        accepted,
        refused,
        cells,
        tiles,
        bytes,
        scratch,
    } = *report;
    let asked = format!(in alloc; "trial {count} {number} accepted {accepted} refused {refused}")?;
    Ok(format!(in alloc; "{asked} cells {cells} tiles {tiles} bytes {bytes} scratch {scratch}")?)
}
