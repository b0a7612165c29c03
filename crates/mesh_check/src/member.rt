// The triangles of a slab.

ghost use Rattle.std.specs.Prelude.{◌≡◌, ◌↔◌, ◌⊎◌, ◌≤ℤ◌, IsTrue};
ghost use Rattle.mesh_plane.specs.Plane.{IsTileTri};
ghost use Rattle.mesh_check.specs.Slab.{IsDown, IsUp, Spans, IsTileSlab};
ghost use Rattle.mesh_check.specs.Members.{Reaches, IsApart, IsTileMember};

use crate::slab::{Segment, Slab};
use mesh_plane::{Corner, Tri};

/// A triangle of a slab, with its number and its two segments there.
#[derive(Clone, Copy, Debug, PartialEq, Eq)]
pub struct Member {
    pub number: u32,
    pub tri: Tri,
    pub left: Segment,
    pub right: Segment,
}

/// Whether the straight line from the corner to the other one reaches up through the slab.
fn goes_up(from: &Corner, to: &Corner, slab: &Slab) -> bool
    ensures { IsTrue result ↔ ((from.now.v ≤ℤ slab.now.low) × (slab.now.high ≤ℤ to.now.v)) }
{
    from.v <= slab.low && slab.high <= to.v
}

/// The edge that goes down through the slab.
pub(crate) fn left_of(tri: &Tri, slab: &Slab) -> Segment
    requires slab { IsTileSlab slab.now }
    requires reaches { Reaches slab.now tri.now }
    requires apart { IsApart slab.now tri.now }
    ensures down { IsDown tri.now result }
    ensures spans { Spans slab.now result }
{
    if goes_up(&tri.b, &tri.a, slab) {
        Segment {
            low: tri.b,
            high: tri.a,
        }
    } else if goes_up(&tri.c, &tri.b, slab) {
        Segment {
            low: tri.c,
            high: tri.b,
        }
    } else {
        Segment {
            low: tri.a,
            high: tri.c,
        }
    }
}

/// The edge that goes up through the slab.
pub(crate) fn right_of(tri: &Tri, slab: &Slab) -> Segment
    requires slab { IsTileSlab slab.now }
    requires reaches { Reaches slab.now tri.now }
    requires apart { IsApart slab.now tri.now }
    ensures up { IsUp tri.now result }
    ensures spans { Spans slab.now result }
{
    if goes_up(&tri.a, &tri.b, slab) {
        Segment {
            low: tri.a,
            high: tri.b,
        }
    } else if goes_up(&tri.b, &tri.c, slab) {
        Segment {
            low: tri.b,
            high: tri.c,
        }
    } else {
        Segment {
            low: tri.c,
            high: tri.a,
        }
    }
}
