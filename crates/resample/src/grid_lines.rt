// The grid lines of a tile, and runs of them.
ghost use Rattle.std.specs.Prelude.{◌≡◌, ℕ, ◌*◌, ◌^◌, ◌<◌, ◌≤◌, slice_index_or};
ghost use Rattle.resample.specs.Line.{AreLines, AreColumns, AreRows, IsRun, no_line};

use crate::line::{Line, line_at, turn_to};
use terrain_base::TileId;
use tms_tree::tile_place;

/// The grid lines of a tile, turned to the cells that were asked last.
#[derive(Drop)]
pub(crate) struct GridLines {
    pub(crate) columns: [Line; 67],
    pub(crate) rows: [Line; 67],
}

/// Neighbouring grid lines that lie in one degree, or on its border: from the first to the one before the end.
#[derive(Clone, Copy)]
pub(crate) struct Run {
    pub(crate) first: u8,
    pub(crate) end: u8,
    pub(crate) degrees: u64,
}

const AT_ZERO: Line = Line {
    degrees: 0,
    rest: 0,
    posts: 2,
    post: 0,
    beyond: 0,
};

/// The grid lines of the tile's columns.
pub(crate) fn column_lines(tile: TileId) -> [Line; 67]
    ensures { AreColumns tile result }
{
    let mut lines = [AT_ZERO; 67];
    for i in 0..67u8 {
        let place = tile_place(tile, i, 0);
        lines[i as usize] = line_at(180 * place.p, place.d);
    }
    lines
}

/// The grid lines of the tile's rows.
pub(crate) fn row_lines(tile: TileId) -> [Line; 67]
    ensures { AreRows tile result }
{
    let mut lines = [AT_ZERO; 67];
    for j in 0..67u8 {
        let place = tile_place(tile, 0, j);
        lines[j as usize] = line_at(180 * place.q, place.d);
    }
    lines
}

/// The longest run that begins at a line.
pub(crate) fn run_at(lines: &[Line; 67], first: u8) -> Run
    requires { first < 67 }
    ensures first { result.first ≡ first }
    ensures run { (units : ℕ → ℕ) (d : ℕ) → AreLines units d lines.now → IsRun units d result }
{
    let degrees = lines[first as usize].degrees;
    let mut end = first + 1;
    while end < 67 && lines[end as usize].degrees == degrees {
        end += 1;
    }
    Run {
        first,
        end,
        degrees,
    }
}

/// Turns the lines of a run to cells with so many posts a degree.
pub(crate) fn turn_run(lines: &mut [Line; 67], run: Run, posts: u16, d: u64)
    requires d { (0 < d) × (d ≤ 2 ^ 29) }
    requires posts { (2 ≤ posts) × (posts ≤ 3601) }
    requires run { run.end ≤ 67 }
    requires rests { (k : ℕ) → k < 67 → (slice_index_or lines.old k no_line).rest < d }
    ensures lines { (units : ℕ → ℕ) → AreLines units d lines.old → AreLines units d lines.new }
    ensures rests { (k : ℕ) → k < 67 → (slice_index_or lines.new k no_line).rest < d }
{
    for k in run.first..run.end {
        let mut line = lines[k as usize];
        turn_to(&mut line, posts, d);
        lines[k as usize] = line;
    }
}
