// How many tiles exist.
ghost use Rattle.std.specs.Prelude.{◌≡◌, ◌≤◌, ◌^◌, IfOk};
ghost use Rattle.std.specs.List.{All, sum_by};
ghost use Rattle.availability.specs.Count.{columns_of, level_count_of, tile_count_of};
ghost use Rattle.availability.specs.Runs.{IsNonempty};

use crate::{RowRun, runs};
use std::alloc::Global;
use terrain_base::{NoMemory, Summary};

// How many columns the runs have together.
fn column_count(runs: &[RowRun]) -> u64
    requires nonempty { All IsNonempty runs.now }
    requires few { sum_by columns_of runs.now ≤ 2 ^ 29 }
    ensures { result ≡ sum_by columns_of runs.now }
{
    let mut count: u64 = 0;
    for run in runs {
        count += (run.end - run.start) as u64 + 1;
    }
    count
}

// How many tiles of level z exist.
fn level_count(alloc: Global, summaries: &[Summary], cap: u8, z: u8) -> Result<u64, NoMemory>
    requires { z ≤ 14 }
    ensures value { IfOk result (λ count. count ≡ level_count_of cap summaries.now z) }
    ensures few { IfOk result (λ count. count ≤ 2 ^ 29) }
{
    let list = runs(alloc, summaries, cap, z)?;
    Ok(column_count(&list))
}

/// How many tiles of the levels from 0 to `cap` exist.
#[tactic(auto, unfolding(crate::specs::Count::tile_count_of))]
pub fn tile_count(alloc: Global, summaries: &[Summary], cap: u8) -> Result<u64, NoMemory>
    requires { cap ≤ 14 }
    ensures { IfOk result (λ count. count ≡ tile_count_of cap summaries.now) }
{
    let mut count: u64 = 0;
    for z in 0..cap + 1 {
        let of_level = level_count(alloc, summaries, cap, z)?;
        count += of_level;
    }
    Ok(count)
}
