// The tiles that exist, one after the other.
ghost use Rattle.std.specs.Prelude.{◌≡◌, ◌≤◌, ◌++◌, ◌∷◌, [], List, IfOk, OnOk};
ghost use Rattle.std.specs.Iterator.{YieldsFirst, item_count};
ghost use Rattle.std.specs.List.{filter};
ghost use Rattle.std.specs.Vec.Iter.{into_iter_items};
ghost use Rattle.terrain_base.specs.declared.tile.TileId as tile;
ghost use Rattle.availability.specs.Existence.{exists_of};
ghost use Rattle.tile_deps.specs.Tiles.{existing, level_tiles};
ghost use Rattle.tile_deps.specs.Walk.{run_tiles, runs_tiles, tiles_left};

use crate::level_run::LevelRun;
use availability::runs;
use std::alloc::Global;
use std::marker::Model;
use std::vec::IntoIter;
use terrain_base::{NoMemory, Summary, TileId};

/// The tiles that exist and were not given yet, in their order. It keeps the runs of tiles side by side, some two for
/// each row that a cell overlaps at each level, and no list of tiles.
#[derive(Drop)]
pub struct ExistingTiles {
    run: Option<LevelRun>,
    later: IntoIter<LevelRun, Global>,
}

impl Model for ExistingTiles {
    ghost Value = { List tile.TileId };

    ghost view = { λ tiles. tiles_left tiles.run (into_iter_items tiles.later) };
}

// Adds the runs of the tiles of level z that exist.
fn add_level(
    list: &mut Vec<LevelRun>,
    alloc: Global,
    summaries: &[Summary],
    cap: u8,
    z: u8,
) -> Result<(), NoMemory>
    requires { z ≤ 14 }
    ensures { OnOk result (runs_tiles list.new.items
        ≡ runs_tiles list.old.items ++ filter (exists_of cap summaries.now) (level_tiles z)) }
{
    let runs = runs(alloc, summaries, cap, z)?;
    for run in &runs {
        list.push(LevelRun {
            z,
            row: run.row,
            start: run.start,
            end: run.end,
        })?;
    }
    Ok(())
}

// The first tile of the run, and the others.
fn split(run: LevelRun) -> (TileId, Option<LevelRun>)
    ensures { run_tiles run ≡ result.0 ∷ tiles_left result.1 [] }
{
    let first = TileId {
        z: run.z,
        y: run.row,
        x: run.start,
    };
    if run.start == run.end {
        return (first, None);
    }
    let rest = LevelRun {
        z: run.z,
        row: run.row,
        start: run.start + 1,
        end: run.end,
    };
    (first, Some(rest))
}

impl ExistingTiles {
    /// All tiles that exist in a database of these cells with the deepest level `cap`, at most 14: in order, each
    /// once. The order of the cells is free.
    pub fn of(alloc: Global, summaries: &[Summary], cap: u8) -> Result<ExistingTiles, NoMemory>
        requires { cap ≤ 14 }
        ensures { IfOk result (λ tiles. tiles ≡ existing cap summaries.now) }
    {
        let mut list = Vec::new(alloc);
        for z in 0..cap + 1 {
            add_level(&mut list, alloc, summaries, cap, z)?;
        }
        Ok(ExistingTiles {
            run: None,
            later: list.into_iter(),
        })
    }
}

impl Iterator for ExistingTiles {
    type Item = TileId;

    ghost next_gives = { YieldsFirst (λ tiles. tiles) };

    ghost remaining = { item_count (λ tiles. tiles) };

    fn next(&mut self) -> Option<TileId> {
        let run = match self.run {
            Some(run) => run,
            None => self.later.next()?,
        };
        let (tile, rest) = split(run);
        self.run = rest;
        Some(tile)
    }
}
