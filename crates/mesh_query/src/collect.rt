//! The crossings of a segment with the sides of triangles.
ghost use Rattle.std.specs.Prelude.{◌≡◌, pos, ◌++◌, ◌∷◌, [], List, All, OnOk, IfOk};
ghost use Rattle.mesh_plane.specs.Plane.{IsOnTile, IsTilePoint, IsTileTri};
ghost use Rattle.mesh_query.specs.Added.{DirectedSide, side, sides_of, all_sides, AreCrossings};
ghost use Rattle.mesh_query.specs.Found.{at_place};
ghost use Rattle.mesh_query.specs.Metres.{IsLow, IsLowTri};

use crate::crossing::{Place, cross_out};
use crate::rank::{Ranked, with_rank};
use mesh_plane::{Corner, Tri};
use std::alloc::{AllocError, Global};

/// Adds the crossing from the left of the side from `a` to `b` to its right.
fn add_crossing(
    found: &mut Vec<Ranked>,
    from: &Place,
    to: &Place,
    a: &Corner,
    b: &Corner,
) -> Result<(), AllocError>
    requires from { IsTilePoint (pos 1) from.now.u from.now.v }
    requires to { IsTilePoint (pos 1) to.now.u to.now.v }
    requires a { IsOnTile a.now }
    requires b { IsOnTile b.now }
    requires a_low { IsLow a.now }
    requires b_low { IsLow b.now }
    ensures { OnOk result ((sides : List DirectedSide)
        → AreCrossings (at_place from.now) (at_place to.now) sides found.old.items
        → AreCrossings (at_place from.now) (at_place to.now) (sides ++ side a.now b.now ∷ []) found.new.items) }
{
    match cross_out(from, to, a, b) {
        Some(crossing) => {
            found.push(with_rank(crossing))?;
            Ok(())
        }
        None => Ok(()),
    }
}

/// Adds the crossings with the sides of a triangle, each side both ways.
fn add_sides(found: &mut Vec<Ranked>, from: &Place, to: &Place, tri: &Tri) -> Result<(), AllocError>
    requires from { IsTilePoint (pos 1) from.now.u from.now.v }
    requires to { IsTilePoint (pos 1) to.now.u to.now.v }
    requires tri { IsTileTri tri.now }
    requires low { IsLowTri tri.now }
    ensures { OnOk result ((sides : List DirectedSide)
        → AreCrossings (at_place from.now) (at_place to.now) sides found.old.items
        → AreCrossings (at_place from.now) (at_place to.now) (sides ++ sides_of tri.now) found.new.items) }
{
    add_crossing(found, from, to, &tri.a, &tri.b)?;
    add_crossing(found, from, to, &tri.b, &tri.a)?;
    add_crossing(found, from, to, &tri.b, &tri.c)?;
    add_crossing(found, from, to, &tri.c, &tri.b)?;
    add_crossing(found, from, to, &tri.c, &tri.a)?;
    add_crossing(found, from, to, &tri.a, &tri.c)?;
    Ok(())
}

/// The crossings with the sides of triangles.
pub(crate) fn crossings_of(
    alloc: Global,
    tris: &[Tri],
    from: &Place,
    to: &Place,
) -> Result<Vec<Ranked>, AllocError>
    requires from { IsTilePoint (pos 1) from.now.u from.now.v }
    requires to { IsTilePoint (pos 1) to.now.u to.now.v }
    requires tris { All IsTileTri tris.now }
    requires low { All IsLowTri tris.now }
    ensures { IfOk result (λ found.
        AreCrossings (at_place from.now) (at_place to.now) (all_sides tris.now) found.items) }
{
    let mut found = Vec::new(alloc);
    for tri in tris {
        add_sides(&mut found, from, to, tri)?;
    }
    Ok(found)
}
