// Runs that touch are joined.
ghost use Rattle.std.specs.Prelude.{◌≡◌, IfOk};
ghost use Rattle.std.specs.List.{All, AllPairs};
ghost use Rattle.availability.specs.Merge.{IsBehind, joins_of, Takes, AreJoined};
ghost use Rattle.availability.specs.Runs.{IsNonempty};

use crate::RowRun;
use std::alloc::Global;
use terrain_base::NoMemory;

// The next run, which does not begin before this one, lies in its row and leaves no column between them.
fn joins(run: RowRun, next: RowRun) -> bool
    ensures { result ≡ joins_of run next }
{
    run.row == next.row && next.start.saturating_sub(run.end) <= 1
}

// Takes the next run: the run grows by it, or is done.
fn taken(done: &mut Vec<RowRun>, run: RowRun, next: RowRun) -> Result<RowRun, NoMemory>
    ensures { IfOk result (λ grown. Takes run next grown done.old.items done.new.items) }
{
    if joins(run, next) {
        Ok(RowRun {
            row: run.row,
            start: run.start,
            end: run.end.max(next.end),
        })
    } else {
        done.push(run)?;
        Ok(next)
    }
}

/// Joins the runs that have a column in common or stand side by side in a row. None begins before an earlier
/// one.
pub(crate) fn merged(alloc: Global, sorted: &[RowRun]) -> Result<Vec<RowRun>, NoMemory>
    requires nonempty { All IsNonempty sorted.now }
    requires sorted { AllPairs IsBehind sorted.now }
    ensures { IfOk result (λ runs. AreJoined sorted.now runs.items) }
{
    let mut done = Vec::new(alloc);
    if let Some((first, rest)) = sorted.split_first() {
        let mut run = *first;
        for next in rest {
            run = taken(&mut done, run, *next)?;
        }
        done.push(run)?;
    }
    Ok(done)
}
