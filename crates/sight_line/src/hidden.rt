//! Triangles that come above a line of sight.

ghost use Rattle.std.specs.Prelude.{◌≡◌, ◌↔◌, pos, ◌<ℤ◌, ◌≤◌, ◌^◌, All, Any, IsTrue, unsigned_abs};
ghost use Rattle.mesh_plane.specs.Plane.{IsOnTile, IsTileTri};
ghost use Rattle.mesh_query.specs.Found.{at_place};
ghost use Rattle.mesh_query.specs.Metres.{IsLow, IsLowTri};
ghost use Rattle.mesh_query.specs.Rank.{IsOnWay};
ghost use Rattle.mesh_query.specs.Ratios.{ratio, IsBelow};
ghost use Rattle.sight_line.specs.Hidden.{IsCutOut, IsCut, Hides};
ghost use Rattle.sight_line.specs.Line.{IsLine};
ghost use Rattle.sight_line.specs.Sight.{line_at};

use crate::line::{Line, is_under};
use mesh_plane::{Corner, Tri};
use mesh_query::{Crossing, Ratio, aside_of, cross_out};

/// Whether the line is below the height of a crossing.
pub(crate) fn dips(line: &Line, crossing: &Crossing) -> bool
    requires line { IsLine line.now }
    requires on_way { IsOnWay crossing.now }
    requires height { unsigned_abs crossing.now.height ≤ 2 ^ 50 }
    ensures { IsTrue result ↔ IsBelow (line_at line.now.start line.now.end (ratio crossing.now.over crossing.now.under))
        (ratio crossing.now.height crossing.now.under) }
{
    let under = i128::from(crossing.under);
    let at = Ratio {
        over: i128::from(crossing.over),
        under,
    };
    let metres = Ratio {
        over: i128::from(crossing.height),
        under,
    };
    is_under(line, at, metres)
}

/// Whether the line crosses the side from `a` to `b`, from its left to its right, and is below it there.
fn is_cut_out(line: &Line, a: &Corner, b: &Corner) -> bool
    requires line { IsLine line.now }
    requires a { IsOnTile a.now }
    requires b { IsOnTile b.now }
    requires a_low { IsLow a.now }
    requires b_low { IsLow b.now }
    ensures { IsTrue result ↔ IsCutOut (at_place line.now.from) line.now.start (at_place line.now.to) line.now.end
        a.now b.now }
{
    match cross_out(&line.from, &line.to, a, b) {
        Some(crossing) => dips(line, &crossing),
        None => false,
    }
}

/// Whether the line crosses the side, one way or the other, and is below it there.
fn is_cut(line: &Line, a: &Corner, b: &Corner) -> bool
    requires line { IsLine line.now }
    requires a { IsOnTile a.now }
    requires b { IsOnTile b.now }
    requires a_low { IsLow a.now }
    requires b_low { IsLow b.now }
    ensures { IsTrue result ↔ IsCut (at_place line.now.from) line.now.start (at_place line.now.to) line.now.end
        a.now b.now }
{
    is_cut_out(line, a, b) || is_cut_out(line, b, a)
}

/// Whether all three are above 0.
fn all_left(a: i64, b: i64, c: i64) -> bool
    ensures { IsTrue result → (pos 0 <ℤ a) × ((pos 0 <ℤ b) × (pos 0 <ℤ c)) }
{
    a > 0 && b > 0 && c > 0
}

/// Whether all three are below 0.
fn all_right(a: i64, b: i64, c: i64) -> bool
    ensures { IsTrue result → (a <ℤ pos 0) × ((b <ℤ pos 0) × (c <ℤ pos 0)) }
{
    a < 0 && b < 0 && c < 0
}

/// Whether all corners of a triangle lie on one side of the line, as seen from above, and none on it: such a triangle
/// hides nothing, and most are such.
fn is_aside(line: &Line, tri: &Tri) -> bool
    requires line { IsLine line.now }
    requires tri { IsTileTri tri.now }
    ensures { IsTrue result → ¬ Hides (at_place line.now.from) line.now.start (at_place line.now.to)
        line.now.end tri.now }
{
    let a = aside_of(&line.from, &line.to, &tri.a);
    let b = aside_of(&line.from, &line.to, &tri.b);
    let c = aside_of(&line.from, &line.to, &tri.c);
    all_left(a, b, c) || all_right(a, b, c)
}

/// Whether the line is below one of the sides of a triangle where it crosses it.
fn hides(line: &Line, tri: &Tri) -> bool
    requires line { IsLine line.now }
    requires tri { IsTileTri tri.now }
    requires low { IsLowTri tri.now }
    ensures { IsTrue result ↔ Hides (at_place line.now.from) line.now.start (at_place line.now.to)
        line.now.end tri.now }
{
    if is_aside(line, tri) {
        return false;
    }
    is_cut(line, &tri.a, &tri.b) || is_cut(line, &tri.b, &tri.c) || is_cut(line, &tri.c, &tri.a)
}

/// Whether some triangle hides the one end of the line from the other.
pub(crate) fn is_hidden(tris: &[Tri], line: &Line) -> bool
    requires line { IsLine line.now }
    requires tris { All IsTileTri tris.now }
    requires low { All IsLowTri tris.now }
    ensures { IsTrue result ↔ Any (Hides (at_place line.now.from) line.now.start (at_place line.now.to)
        line.now.end) tris.now }
{
    for tri in tris {
        if hides(line, tri) {
            return true;
        }
    }
    false
}
