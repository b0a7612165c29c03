// All tiles of a level that touch a square.
ghost use Rattle.std.specs.Prelude.{◌≡◌, ℕ, ◌+◌, ◌*◌, ◌≤◌, ◌<◌, ◌^◌, ◌||◌, IfSome};
ghost use Rattle.terrain_base.specs.declared.tile.TileId as tile;
ghost use Rattle.tms_tree.specs.Touch.{meets_at, round_meets_at, touches_of};
ghost use Rattle.tms_tree.specs.Touched.{is_in_run, is_in_east, is_in_rows, IsRun, IsBehind, IsTouchedRows};

use terrain_base::Square;

/// Rows or columns from `start` to `end`, both among them.
#[derive(Clone, Copy, Debug, PartialEq, Eq)]
pub struct Run {
    pub start: u32,
    pub end: u32,
}

/// The tiles with their row in `rows` and their column in `west` or `east`.
#[derive(Clone, Copy, Debug, PartialEq, Eq)]
pub struct TouchedRows {
    pub rows: Run,
    pub west: Run,
    pub east: Option<Run>,
}

// The stripes, of as many as the level has, that have a point in common with the closed degree.
fn run_of(z: u8, stripes: u32, degree: u32) -> Run
    requires level { z ≤ 14 }
    requires stripes { stripes ≤ 2 ^ 15 }
    requires degree { (degree * 2 ^ z < 180 * stripes) × (degree < 2 ^ 9) }
    ensures exact { (stripe : ℕ) → stripe < stripes → meets_at z stripe degree ≡ is_in_run result stripe }
    ensures run { IsRun stripes result }
{
    let start = (degree << z).saturating_sub(1) / 180;
    let end = (((degree + 1) << z) / 180).min(stripes - 1);
    Run { start, end }
}

// The columns that have a meridian in common with the closed degree, longitudes modulo 360.
fn columns_of(z: u8, lon: u16) -> (Run, Option<Run>)
    requires level { z ≤ 14 }
    requires degree { lon < 360 }
    ensures exact { (column : ℕ) → column < 2 ^ (z + 1)
        → round_meets_at z column lon ≡ (is_in_run result.0 column || is_in_east result.1 column) }
    ensures west { IsRun (2 ^ (z + 1)) result.0 }
    ensures east { IfSome result.1 (IsBehind (2 ^ (z + 1)) result.0) }
{
    let columns = 1 << (z + 1);
    let last = columns - 1;
    let run = run_of(z, columns, lon as u32);
    match lon {
        0 => (
            run,
            Some(Run {
                start: last,
                end: last,
            }),
        ),
        359 => (Run { start: 0, end: 0 }, Some(run)),
        _ => (run, None),
    }
}

/// The tiles of level `z` that touch the square: exactly those with their row in `rows` and their
/// column in `west` or `east`. The two runs share no column and ascend.
pub fn touched_row(square: Square, z: u8) -> TouchedRows
    requires { z ≤ 14 }
    ensures exact { (tile : tile.TileId) → tile.z ≡ z → touches_of tile square ≡ is_in_rows result tile }
    ensures ascending { IsTouchedRows z result }
{
    let rows = run_of(z, 1 << z, square.lat as u32);
    let (west, east) = columns_of(z, square.lon);
    TouchedRows { rows, west, east }
}

#[cfg(test)]
mod tests {
    use super::*;
    use std::test::Fail;

    #[test]
    fn a_square_on_the_equator_is_touched_at_level_9(rt: HostRuntime) -> Result<(), Fail> {
        let square = Square::of(180, 90).ok_or("square")?;
        let touched = touched_row(square, 9);
        assert_eq!(rt;
            touched.rows,
            Run {
                start: 255,
                end: 258
            }
        );
        assert_eq!(rt;
            touched.west,
            Run {
                start: 511,
                end: 514
            }
        );
        assert_eq!(rt; touched.east, None);
        Ok(())
    }

    #[test]
    fn a_square_at_the_antimeridian_is_touched_from_both_sides(
        rt: HostRuntime,
    ) -> Result<(), Fail> {
        let square = Square::of(0, 100).ok_or("square")?;
        let touched = touched_row(square, 9);
        assert_eq!(rt; touched.west, Run { start: 0, end: 2 });
        assert_eq!(rt;
            touched.east,
            Some(Run {
                start: 1023,
                end: 1023
            })
        );
        Ok(())
    }
}
