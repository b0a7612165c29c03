//! The profile of a segment.
ghost use Rattle.std.specs.Prelude.{◌≡◌, ◌≢◌, pos, IfOk, All, Any};
ghost use Rattle.mesh_plane.specs.Plane.{IsTilePoint, IsTileTri};
ghost use Rattle.mesh_plane.specs.Cover.{Covers};
ghost use Rattle.mesh_query.specs.Breaks.{IsBreak};
ghost use Rattle.mesh_query.specs.Field.{triangles_of};
ghost use Rattle.mesh_query.specs.Found.{at_place};
ghost use Rattle.mesh_query.specs.Listed.{AreListed};
ghost use Rattle.mesh_query.specs.Metres.{IsLowTri};
ghost use Rattle.mesh_query.specs.Profile.{IsProfile, IsSmall, Neighbours};
ghost use Rattle.mesh_query.specs.Straight.{IsStraight};
ghost use Rattle.mesh_query.specs.Way.{place, IsSpot};

use crate::collect::crossings_of;
use crate::crossing::{Crossing, Place};
use crate::ends::start;
use crate::field::MeshField;
use crate::made::breaks_of;
use crate::rank::{Ranked, order, thin, with_rank};
use crate::spot::{Break, Spot};
use mesh_plane::Tri;
use std::alloc::Global;
use terrain_base::NoMemory;

/// Where a spot lies.
pub fn place_of(spot: Spot) -> Place
    requires { IsSpot spot }
    ensures place { at_place result ≡ place spot }
    ensures on_tile { IsTilePoint (pos 1) result.u result.v }
{
    Place {
        u: i64::from(spot.u),
        v: i64::from(spot.v),
    }
}

/// The crossings of the segment with the sides of triangles, and its two ends.
fn listed(alloc: Global, tris: &[Tri], from: &Place, to: &Place) -> Result<Vec<Ranked>, NoMemory>
    requires from { IsTilePoint (pos 1) from.now.u from.now.v }
    requires to { IsTilePoint (pos 1) to.now.u to.now.v }
    requires apart { at_place from.now ≢ at_place to.now }
    requires covers { Covers tris.now }
    requires low { All IsLowTri tris.now }
    ensures { IfOk result (λ found. AreListed tris.now (at_place from.now) (at_place to.now) found.items) }
{
    let mut found = crossings_of(alloc, tris, from, to)?;
    found.push(with_rank(start(tris, from)))?;
    let end = start(tris, to);
    found.push(with_rank(Crossing {
        over: end.under,
        under: end.under,
        height: end.height,
    }))?;
    Ok(found)
}

/// The breaks of a segment between two different spots of the tile, ascending, each once, with the surface at each.
/// Between two neighbouring breaks the surface is straight. Their numbers are below 2^31, those of heights below 2^51.
pub fn breaks(
    alloc: Global,
    field: &MeshField,
    from: Spot,
    to: Spot,
) -> Result<Vec<Break>, NoMemory>
    requires from { IsSpot from }
    requires to { IsSpot to }
    requires apart { place from ≢ place to }
    ensures profile { IfOk result (λ list. IsProfile (triangles_of field.now) (place from) (place to) list.items) }
    ensures straight { IfOk result
        (λ list. Neighbours (IsStraight (triangles_of field.now) (place from) (place to)) list.items) }
    ensures small { IfOk result (λ list. All IsSmall list.items) }
{
    let mut found = listed(alloc, field.tris(), &place_of(from), &place_of(to))?;
    order(&mut found);
    thin(&mut found);
    Ok(breaks_of(alloc, &found)?)
}
