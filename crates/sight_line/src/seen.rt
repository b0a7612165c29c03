//! Which vertices a point sees.

ghost use Rattle.std.specs.Prelude.{◌≡◌, ◌↔◌, pos, ◌<ℤ◌, ◌≤◌, ◌^◌, length, All, IsTrue, IfOk, unsigned_abs};
ghost use Rattle.mesh_plane.specs.Cover.{Covers};
ghost use Rattle.mesh_plane.specs.Plane.{IsTileTri};
ghost use Rattle.mesh_query.specs.Ends.{IsStart};
ghost use Rattle.mesh_query.specs.Found.{at_place};
ghost use Rattle.mesh_query.specs.Metres.{IsLowTri};
ghost use Rattle.mesh_query.specs.Way.{place};
ghost use Rattle.sight_line.specs.Line.{IsEye, IsLine};
ghost use Rattle.sight_line.specs.Seen.{AreSeen};
ghost use Rattle.sight_line.specs.Sight.{IsClear};

use crate::eye::Eye;
use crate::hidden::{dips, is_hidden};
use crate::line::Line;
use mesh_plane::Tri;
use mesh_query::{Crossing, MeshField, Place, place_of, start};
use std::alloc::Global;
use terrain_base::NoMemory;

/// Whether the one end of the line sees the other, where `first` is the start of the way.
fn sees(tris: &[Tri], line: &Line, first: &Crossing) -> bool
    requires line { IsLine line.now }
    requires covers { Covers tris.now }
    requires low { All IsLowTri tris.now }
    requires first { IsStart tris.now line.now.from first.now }
    ensures { IsTrue result
        ↔ IsClear tris.now (at_place line.now.from) line.now.start (at_place line.now.to) line.now.end }
{
    if dips(line, first) {
        return false;
    }
    if is_hidden(tris, line) {
        return false;
    }
    // A vertex that no triangle has may lie above or below the surface, so its own height tells nothing.
    let last = start(tris, &line.to);
    let end = Crossing {
        over: last.under,
        under: last.under,
        height: last.height,
    };
    if dips(line, &end) {
        return false;
    }
    true
}

/// The numbers of the vertices that a point over the tile sees, ascending. Each vertex is looked at at its own height.
///
/// Takes time in the number of vertices times that of triangles.
pub fn view(alloc: Global, field: &MeshField, eye: Eye) -> Result<Vec<u32>, NoMemory>
    requires eye { IsEye eye }
    ensures { IfOk result
        (λ seen. AreSeen field.now (place eye.spot) eye.metres (length field.now.corners) seen.items) }
{
    let tris = field.tris();
    let from = place_of(eye.spot);
    let first = start(tris, &from);
    let mut seen = Vec::new(alloc);
    for k in 0..field.vertices() {
        let corner = field.corner(k);
        let line = Line {
            from,
            start: eye.metres,
            to: Place {
                u: corner.u,
                v: corner.v,
            },
            end: corner.h,
        };
        if sees(tris, &line, &first) {
            seen.push(k)?;
        }
    }
    Ok(seen)
}
