// The audit of a mesh.

ghost use Rattle.std.specs.Prelude.{◌≡◌, ◌↔◌, IsTrue, ◌≤◌, ◌<◌, ◌^◌, Ok, None, length, All, IfOk, IfSome};
ghost use Rattle.mesh_plane.specs.Plane.{IsTileTri, IsCounterClockwise};
ghost use Rattle.mesh_plane.specs.Cover.{Covers};
ghost use Rattle.mesh_check.specs.declared.verdict.Verdict.TheVariants.{Good};
ghost use Rattle.mesh_check.specs.CodeMesh.{triangles_of as triangles_in, IsVerdict, IsCovered};
ghost use Rattle.mesh_check.specs.Findings.{IsFirstTurnedBack};
ghost use Rattle.mesh_check.specs.Sweep.{IsCourse};

use crate::mesh::{levels_of, triangles_of};
use crate::span::spans_of;
use crate::sweep::Course;
use crate::verdict::{Finding, Verdict};
use mesh_codec::CodeMesh;
use mesh_plane::{Tri, doubled};
use std::alloc::Global;
use terrain_base::NoMemory;

/// With more vertices a mesh is not looked at.
const MOST_VERTICES: u32 = 16384;

/// Whether a triangle is counter-clockwise.
fn is_counter_clockwise(tri: &Tri) -> bool
    requires { IsTileTri tri.now }
    ensures { IsTrue result ↔ IsCounterClockwise tri.now }
{
    doubled(tri) > 0
}

/// The first triangle that is not counter-clockwise.
fn first_turned_back(triangles: &[Tri]) -> Option<u32>
    requires few { length triangles.now < 2 ^ 32 }
    requires on_tile { All IsTileTri triangles.now }
    ensures found { IfSome result (λ number. IsFirstTurnedBack triangles.now number) }
    ensures none { result ≡ None → All IsCounterClockwise triangles.now }
{
    for number in 0..triangles.len() {
        if !is_counter_clockwise(&triangles[number]) {
            return Some(number as u32);
        }
    }
    None
}

/// What is wrong with a mesh of codes, or that nothing is: whether its triangles cover the tile exactly once,
/// with one height at each point. Heights are the codes of its vertices.
///
/// `Good` comes exactly where the mesh has at most 16384 vertices and covers its tile; each finding comes exactly
/// where its condition holds and none before it does.
pub fn audit(alloc: Global, mesh: &CodeMesh) -> Result<Verdict, NoMemory>
    ensures exact { IfOk result (λ verdict. IsVerdict mesh.now verdict) }
    ensures covers { result ≡ Ok Good → Covers (triangles_in mesh.now) }
    ensures converse { IfOk result (λ verdict. IsCovered mesh.now → verdict ≡ Good) }
{
    let vertices = mesh.vertices();
    if vertices > MOST_VERTICES {
        return Ok(Verdict::Found(Finding::TooLarge { vertices }));
    }
    let triangles = triangles_of(alloc, mesh)?;
    if let Some(triangle) = first_turned_back(&triangles) {
        return Ok(Verdict::Found(Finding::NotCounterClockwise { triangle }));
    }
    let course = Course {
        levels: levels_of(alloc, mesh)?,
        spans: spans_of(alloc, &triangles)?,
        triangles,
    };
    Ok(course.sweep(alloc)?)
}
