// Vertices in metres.
ghost use Rattle.std.specs.Prelude.{◌≡◌, ℤ, pos, ◌+ℤ◌, ◌-ℤ◌, ◌*ℤ◌, ◌<◌, ◌≤◌, ◌^◌, unsigned_abs, IfSome, IfNone, IfOk, IfErr, Some};
ghost use Rattle.mesh_codec.specs.Mesh.{IsVertex};
ghost use Rattle.mesh_codec.specs.Tile.{header_in};
ghost use Rattle.mesh_query.specs.Metres.{AreHeights, IsMetres, IsCorner, IsWhole};
ghost use Rattle.mesh_query.specs.Field.{AreCorners};
ghost use Rattle.mesh_query.specs.Answer.{IsCause};

use crate::refusal::QueryRefusal;
use float_bits::lattice32;
use mesh_codec::{Codes, Header, TileView};
use mesh_plane::Corner;
use std::alloc::Global;
use terrain_base::floor_div;

/// The whole metres of height code 0 and of height code 32767.
#[derive(Clone, Copy)]
pub(crate) struct Span {
    pub least: i32,
    pub greatest: i32,
}

/// The span of a header's heights, where both are whole numbers of metres below 2^24 in size.
pub(crate) fn span_of(header: &Header) -> Option<Span>
    ensures some { IfSome result (λ span. AreHeights header.now span.least span.greatest) }
    ensures only { (least greatest : ℤ) → AreHeights header.now least greatest
        → result ≡ Some (record { least = least; greatest = greatest }) }
{
    let least = lattice32(header.least)?;
    let greatest = lattice32(header.greatest)?;
    Some(Span { least, greatest })
}

/// A code times how far the greatest height is above the least.
fn rise(code: u16, range: i64) -> i64
    requires code { code ≤ 32767 }
    requires range { unsigned_abs range ≤ 2 ^ 25 }
    ensures value { result ≡ pos code *ℤ range }
    ensures size { unsigned_abs result ≤ 2 ^ 40 }
{
    i64::from(code) * range
}

/// The height of a code, 32767 times.
fn scaled_height(span: &Span, code: u16) -> i128
    requires least { unsigned_abs span.now.least < 2 ^ 24 }
    requires greatest { unsigned_abs span.now.greatest < 2 ^ 24 }
    requires code { code ≤ 32767 }
    ensures value { result ≡ pos code *ℤ (span.now.greatest -ℤ span.now.least) +ℤ pos 32767 *ℤ span.now.least }
    ensures size { unsigned_abs result ≤ 2 ^ 42 }
{
    let least = i64::from(span.least);
    let range = i64::from(span.greatest) - least;
    i128::from(rise(code, range) + 32767 * least)
}

/// The metres of a height code, where they are whole and within 65535.
fn metres_of(span: &Span, code: u16) -> Option<i32>
    requires least { unsigned_abs span.now.least < 2 ^ 24 }
    requires greatest { unsigned_abs span.now.greatest < 2 ^ 24 }
    requires code { code ≤ 32767 }
    ensures some { IfSome result (IsMetres span.now.least span.now.greatest code) }
    ensures none { IfNone result ((m : ℤ) → ¬ IsMetres span.now.least span.now.greatest code m) }
{
    let scaled = scaled_height(span, code);
    let metres = floor_div(scaled, 32767);
    if 32767 * metres != scaled || metres < -65535 || metres > 65535 {
        return None;
    }
    Some(metres as i32)
}

/// The vertex in metres.
fn corner_of(header: &Header, codes: Codes) -> Option<Corner>
    requires { IsVertex codes }
    ensures some { IfSome result (IsCorner header.now codes) }
    ensures none { IfNone result (¬ IsWhole header.now codes) }
{
    let span = span_of(header)?;
    let h = metres_of(&span, codes.height)?;
    Some(Corner {
        u: i64::from(codes.u),
        v: i64::from(codes.v),
        h,
    })
}

/// The vertices in metres, by number.
pub(crate) fn corners_of(alloc: Global, view: &TileView<'_>) -> Result<Vec<Corner>, QueryRefusal>
    ensures ok { IfOk result (λ corners. AreCorners view.now corners.items) }
    ensures err { IfErr result (IsCause view.now) }
{
    let header = view.header();
    let mut corners = Vec::new(alloc);
    for codes in view.vertex_codes() {
        match corner_of(&header, codes) {
            Some(corner) => corners.push(corner)?,
            None => {
                return Err(QueryRefusal::NotWhole {
                    vertex: corners.len() as u32,
                });
            }
        }
    }
    Ok(corners)
}
