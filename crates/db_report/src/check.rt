// The line of a check.
ghost use Rattle.std.specs.Prelude.{◌≡◌, IfOk, string_bytes};
ghost use Rattle.db_report.specs.Check.{check_line_of, difference_word as word_of};

use crate::words::name_word;
use database::Difference;
use db_check::CheckVerdict;
use std::alloc::Global;
use terrain_base::NoMemory;

// How a file differs, in a word.
fn difference_word(kind: Difference) -> &'static str
    ensures { result.now ≡ word_of kind }
{
    match kind {
        Difference::Differs => "differs",
        Difference::Missing => "missing",
        Difference::Extra => "extra",
    }
}

/// What is printed of a check, without the line feed: how many files there are, or the least name that shows a
/// difference, and which.
pub fn check_line(alloc: Global, verdict: &CheckVerdict) -> Result<String, NoMemory>
    ensures { IfOk result (λ line. string_bytes line ≡ check_line_of verdict.now) }
{
    match verdict {
        CheckVerdict::Good { files } => Ok(format!(in alloc; "check good files {files}")?),
        CheckVerdict::Found { name, kind } => {
            let word = difference_word(*kind);
            let name = name_word(alloc, name)?;
            Ok(format!(in alloc; "found {word} {name}")?)
        }
    }
}
