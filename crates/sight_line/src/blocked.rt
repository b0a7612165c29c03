//! Whether one point sees another.

ghost use Rattle.std.specs.Prelude.{◌≡◌, ◌≢◌, ◌↔◌, pos, ◌+ℤ◌, ◌-ℤ◌, ◌*ℤ◌, ◌≤ℤ◌, ◌<◌, ◌^◌, length, IfOk};
ghost use Rattle.mesh_plane.specs.Cover.{Covers};
ghost use Rattle.mesh_query.specs.Field.{triangles_of};
ghost use Rattle.mesh_query.specs.Found.{at_place};
ghost use Rattle.mesh_query.specs.Holder.{IsHolder};
ghost use Rattle.mesh_query.specs.Ratios.{IsFraction};
ghost use Rattle.mesh_query.specs.Way.{place, way};
ghost use Rattle.sight_line.specs.Answer.{IsAnswer};
ghost use Rattle.sight_line.specs.Line.{IsEye, IsLine};
ghost use Rattle.sight_line.specs.Sight.{IsClear};
ghost use Rattle.sight_line.specs.declared.eye.SightAnswer.TheVariants.{Clear};

use crate::eye::{Eye, SightAnswer};
use crate::line::{Line, height_of, is_under};
use mesh_plane::Tri;
use mesh_query::{MeshField, Ratio, breaks, holder, place_of};
use std::alloc::Global;
use terrain_base::NoMemory;

/// The line from one eye to another.
fn line_between(from: Eye, to: Eye) -> Line
    requires from { IsEye from }
    requires to { IsEye to }
    ensures line { IsLine result }
    ensures from { at_place result.from ≡ place from.spot }
    ensures start { result.start ≡ from.metres }
    ensures to { at_place result.to ≡ place to.spot }
    ensures end { result.end ≡ to.metres }
{
    Line {
        from: place_of(from.spot),
        start: from.metres,
        to: place_of(to.spot),
        end: to.metres,
    }
}

/// A coordinate at a fraction of the way, over/scale, times the scale.
fn along(scale: i64, over: i64, from: i64, to: i64) -> i64
    requires low { pos 0 ≤ℤ over }
    requires high { over ≤ℤ scale }
    requires scale { scale ≤ℤ pos 2147352578 }
    requires from_low { pos 0 ≤ℤ from }
    requires from_high { from ≤ℤ pos 32767 }
    requires to_low { pos 0 ≤ℤ to }
    requires to_high { to ≤ℤ pos 32767 }
    ensures { result ≡ (scale -ℤ over) *ℤ from +ℤ over *ℤ to }
{
    (scale - over) * from + over * to
}

/// The least number of a triangle that holds the point at a fraction of the way.
fn holder_at(tris: &[Tri], line: &Line, at: Ratio) -> u32
    requires line { IsLine line.now }
    requires covers { Covers tris.now }
    requires few { length tris.now < 2 ^ 32 }
    requires fraction { IsFraction at }
    requires small { at.under ≤ℤ pos 2147352578 }
    ensures { IsHolder tris.now at.under (way (at_place line.now.from) (at_place line.now.to) at).u
        (way (at_place line.now.from) (at_place line.now.to) at).v result }
{
    let scale = at.under as i64;
    let over = at.over as i64;
    let u = along(scale, over, line.from.u, line.to.u);
    let v = along(scale, over, line.from.v, line.to.v);
    holder(tris, scale, u, v) as u32
}

/// Whether one point over the tile sees another, over another spot: `Clear` exactly where nowhere on the way the
/// straight line between them is below the surface. A point below the surface sees nothing.
pub fn sight(alloc: Global, field: &MeshField, from: Eye, to: Eye) -> Result<SightAnswer, NoMemory>
    requires from { IsEye from }
    requires to { IsEye to }
    requires apart { place from.spot ≢ place to.spot }
    ensures clear { IfOk result (λ answer. (answer ≡ Clear)
        ↔ IsClear (triangles_of field.now) (place from.spot) from.metres (place to.spot) to.metres) }
    ensures answer { IfOk result
        (IsAnswer (triangles_of field.now) (place from.spot) from.metres (place to.spot) to.metres) }
{
    let tris = field.tris();
    let line = line_between(from, to);
    let list = breaks(alloc, field, from.spot, to.spot)?;
    for bend in &list {
        if is_under(&line, bend.at, bend.metres) {
            return Ok(SightAnswer::Blocked {
                at: bend.at,
                triangle: holder_at(tris, &line, bend.at),
                ground: bend.metres,
                line: height_of(&line, bend.at),
            });
        }
    }
    Ok(SightAnswer::Clear)
}
