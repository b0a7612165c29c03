// The tiles that a square overlaps.
ghost use Rattle.std.specs.Prelude.{◌≡◌, ℕ, ◌≤◌, ◌<◌, ◌^◌, OnOk};
ghost use Rattle.std.specs.List.{All};
ghost use Rattle.availability.specs.Runs.{IsNonempty};
ghost use Rattle.availability.specs.Existence.{makes_at};
ghost use Rattle.availability.specs.Crossing.{Adds, crosses_both};
ghost use Rattle.tms_tree.specs.Touch.{crosses_at};
ghost use Rattle.tms_tree.specs.Touched.{is_in_run};

use crate::RowRun;
use terrain_base::{NoMemory, Square, Summary, depth};
use tms_tree::Run;

// The stripes of level z whose inside has a parallel, or a meridian, in common with the inside of the degree.
fn crossed(z: u8, degree: u32) -> Run
    requires level { z ≤ 14 }
    requires degree { degree < 2 ^ 9 }
    ensures exact { (stripe : ℕ) → crosses_at z stripe degree ≡ is_in_run result stripe }
    ensures ordered { result.start ≤ result.end }
    ensures bound { result.end < 2 ^ 24 }
{
    let start = (degree << z) / 180;
    let end = (((degree + 1) << z) - 1) / 180;
    Run { start, end }
}

// Adds one run in each row that the square overlaps.
fn add_crossed(list: &mut Vec<RowRun>, z: u8, square: Square) -> Result<(), NoMemory>
    requires { z ≤ 14 }
    ensures runs { OnOk result (Adds (crosses_both z square) list.old.items list.new.items) }
    ensures nonempty { OnOk result (All IsNonempty list.old.items → All IsNonempty list.new.items) }
{
    let rows = crossed(z, square.lat as u32);
    let columns = crossed(z, square.lon as u32);
    for row in rows.start..rows.end + 1 {
        list.push(RowRun {
            row,
            start: columns.start,
            end: columns.end,
        })?;
    }
    Ok(())
}

/// Adds the runs of the tiles of level z that the cell makes.
pub(crate) fn add_made(
    list: &mut Vec<RowRun>,
    cap: u8,
    z: u8,
    cell: Summary,
) -> Result<(), NoMemory>
    ensures runs { OnOk result (Adds (λ row column. makes_at cap z row column cell) list.old.items list.new.items) }
    ensures nonempty { OnOk result (All IsNonempty list.old.items → All IsNonempty list.new.items) }
{
    if z <= depth(cell.level, cap) {
        add_crossed(list, z, cell.square)?;
    }
    Ok(())
}
