// The tiles of a level, as runs of columns.
ghost use Rattle.std.specs.Prelude.{◌≡◌, IfOk};
ghost use Rattle.std.specs.List.{All};
ghost use Rattle.availability.specs.Crossing.{HasPlaces, top_at, made_at};
ghost use Rattle.availability.specs.Runs.{IsNonempty, AreRuns, runs_of};

use crate::crossing::add_made;
use crate::merge::merged;
use std::alloc::Global;
use terrain_base::{NoMemory, Summary};

/// Tiles of one row, from the column `start` to the column `end`, both among them. Runs are ordered by row,
/// then column.
#[derive(Clone, Copy, Debug, PartialEq, Eq, PartialOrd, Ord)]
pub struct RowRun {
    /// The row, counted from the south.
    pub row: u32,
    /// The first column, counted from the west.
    pub start: u32,
    /// The last column.
    pub end: u32,
}

// Both tiles of level 0; none of another level.
fn first_runs(alloc: Global, z: u8) -> Result<Vec<RowRun>, NoMemory>
    ensures places { IfOk result (λ list. HasPlaces (top_at z) list.items) }
    ensures nonempty { IfOk result (λ list. All IsNonempty list.items) }
{
    let mut list = Vec::new(alloc);
    if z == 0 {
        list.push(RowRun {
            row: 0,
            start: 0,
            end: 1,
        })?;
    }
    Ok(list)
}

// The existing tiles of level z, in runs as the cells give them.
fn made_runs(alloc: Global, summaries: &[Summary], cap: u8, z: u8) -> Result<Vec<RowRun>, NoMemory>
    ensures places { IfOk result (λ list. HasPlaces (made_at cap summaries.now z) list.items) }
    ensures nonempty { IfOk result (λ list. All IsNonempty list.items) }
{
    let mut list = first_runs(alloc, z)?;
    for cell in summaries {
        add_made(&mut list, cap, z, *cell)?;
    }
    Ok(list)
}

/// The existing tiles of level `z` as maximal runs, by row, then column: no two of a row share a column or
/// stand side by side. Above the cap there are none. The order of the cells is free.
pub fn runs(alloc: Global, summaries: &[Summary], cap: u8, z: u8) -> Result<Vec<RowRun>, NoMemory>
    ensures value { IfOk result (λ list. list.items ≡ runs_of cap summaries.now z) }
    ensures meaning { IfOk result (λ list. AreRuns cap summaries.now z list.items) }
{
    let mut list = made_runs(alloc, summaries, cap, z)?;
    list.sort()?;
    merged(alloc, &list)
}
