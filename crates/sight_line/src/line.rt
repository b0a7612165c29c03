//! Straight lines between two points over the tile.

ghost use Rattle.std.specs.Prelude.{◌≡◌, ◌↔◌, pos, ◌*ℤ◌, ◌≤ℤ◌, ◌<ℤ◌, ◌≤◌, ◌^◌, IsTrue, unsigned_abs};
ghost use Rattle.mesh_query.specs.Profile.{IsSmall};
ghost use Rattle.mesh_query.specs.Ratios.{IsBelow, IsFraction, IsLowest, IsSame};
ghost use Rattle.sight_line.specs.Sight.{line_at};
ghost use Rattle.sight_line.specs.Line.{IsLine};

use mesh_query::{Place, Ratio, reduced};

/// A line of sight: its two ends, and the height at each in metres.
#[derive(Clone, Copy)]
pub(crate) struct Line {
    pub from: Place,
    pub start: i32,
    pub to: Place,
    pub end: i32,
}

/// The height of the line at a fraction of the way, times the lower number of the fraction.
fn rise(line: &Line, at: Ratio) -> i128
    requires line { IsLine line.now }
    requires fraction { IsFraction at }
    requires small { at.under ≤ℤ pos 2147352578 }
    ensures value { result ≡ (line_at line.now.start line.now.end at).over }
    ensures size { unsigned_abs result ≤ 2 ^ 48 }
{
    (at.under - at.over) * i128::from(line.start) + at.over * i128::from(line.end)
}

/// The upper number of a height times the lower number of another.
fn scaled(over: i128, under: i128) -> i128
    requires over { unsigned_abs over ≤ 2 ^ 50 }
    requires under { unsigned_abs under ≤ 2147352578 }
    ensures { result ≡ over *ℤ under }
{
    over * under
}

/// Whether the line is below a height at a fraction of the way.
pub(crate) fn is_under(line: &Line, at: Ratio, metres: Ratio) -> bool
    requires line { IsLine line.now }
    requires fraction { IsFraction at }
    requires above_zero { pos 0 <ℤ metres.under }
    requires small { IsSmall (record { at = at; metres = metres }) }
    ensures { IsTrue result ↔ IsBelow (line_at line.now.start line.now.end at) metres }
{
    scaled(rise(line, at), metres.under) < scaled(metres.over, at.under)
}

/// The height of the line at a fraction of the way, in metres.
pub(crate) fn height_of(line: &Line, at: Ratio) -> Ratio
    requires line { IsLine line.now }
    requires fraction { IsFraction at }
    requires small { at.under ≤ℤ pos 2147352578 }
    ensures value { IsSame (line_at line.now.start line.now.end at) result }
    ensures lowest { IsLowest result }
{
    reduced(rise(line, at), at.under)
}
