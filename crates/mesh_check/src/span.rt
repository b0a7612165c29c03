// From which level to which one each triangle reaches.

ghost use Rattle.std.specs.Prelude.{◌≡◌, ◌<◌, ◌^◌, ℤ, pos, ◌≤ℤ◌, length, All, IfOk, IsPermutation};
ghost use Rattle.std.specs.List.Sorted.{IsNonDecreasingBy};
ghost use Rattle.mesh_plane.specs.Plane.{IsTileTri};
ghost use Rattle.mesh_check.specs.Spans.{IsSpan, AreFirstSpans, AreSpans};

use mesh_plane::Tri;
use std::alloc::{AllocError, Global};

/// The least and the greatest `v` of a triangle's corners, and its number.
#[derive(Clone, Copy, Debug, PartialEq, Eq)]
pub struct Span {
    pub low: u16,
    pub high: u16,
    pub number: u32,
}

/// A coordinate on the tile in two bytes.
fn short(v: i64) -> u16
    requires low { pos 0 ≤ℤ v }
    requires high { v ≤ℤ pos 32767 }
    ensures { pos result ≡ v }
{
    v as u16
}

/// The span of a triangle.
fn span_of(number: u32, tri: &Tri) -> Span
    requires { IsTileTri tri.now }
    ensures number { result.number ≡ number }
    ensures is { IsSpan tri.now result }
{
    let (a, b, c) = (short(tri.a.v), short(tri.b.v), short(tri.c.v));
    Span {
        low: a.min(b).min(c),
        high: a.max(b).max(c),
        number,
    }
}

/// The spans of triangles, in the order of their numbers.
fn first_spans(alloc: Global, triangles: &[Tri]) -> Result<Vec<Span>, AllocError>
    requires few { length triangles.now < 2 ^ 32 }
    requires on_tile { All IsTileTri triangles.now }
    ensures { IfOk result (λ spans. AreFirstSpans triangles.now (length triangles.now) spans.items) }
{
    let mut spans = Vec::new(alloc);
    for number in 0..triangles.len() {
        spans.push(span_of(number as u32, &triangles[number]))?;
    }
    Ok(spans)
}

/// Sorts spans by their low ends.
fn sort_spans(spans: &mut Vec<Span>)
    ensures moved { IsPermutation spans.old.items spans.new.items }
    ensures ascending { IsNonDecreasingBy (λ s. s.low) spans.new.items }
{
    spans.sort_unstable_by_key(|span| span.low);
}

/// The spans of triangles, by their low ends.
pub(crate) fn spans_of(alloc: Global, triangles: &[Tri]) -> Result<Vec<Span>, AllocError>
    requires few { length triangles.now < 2 ^ 32 }
    requires on_tile { All IsTileTri triangles.now }
    ensures { IfOk result (λ spans. AreSpans triangles.now spans.items) }
{
    let mut spans = first_spans(alloc, triangles)?;
    sort_spans(&mut spans);
    Ok(spans)
}
