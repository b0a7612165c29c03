// The members of a slab in order.

ghost use Rattle.std.specs.Prelude.{◌≡◌, ◌<◌, length, All, IfOk};
ghost use Rattle.std.specs.List.{AllZip};
ghost use Rattle.mesh_plane.specs.Plane.{IsTileTri};
ghost use Rattle.mesh_check.specs.Slab.{IsTileSlab};
ghost use Rattle.mesh_check.specs.Members.{AreMembers, IsTileMember};
ghost use Rattle.mesh_check.specs.Ordered.{IsActive, IsMemberAt, IsRankAt, AreMembersAt, IsEachOnce, AreAll};

use crate::member::{Member, left_of, right_of};
use crate::rank::{Rank, key, sort_ranks};
use crate::slab::Slab;
use crate::span::Span;
use mesh_plane::Tri;
use std::alloc::{AllocError, Global};

/// The rank of the member of a number.
fn rank_at(slab: &Slab, triangles: &[Tri], number: u32) -> Rank
    requires slab { IsTileSlab slab.now }
    requires triangles { All IsTileTri triangles.now }
    requires active { IsActive slab.now triangles.now number }
    ensures { IsRankAt slab.now triangles.now number result }
{
    let tri = &triangles[number as usize];
    Rank {
        left: key(slab, &left_of(tri, slab)),
        right: key(slab, &right_of(tri, slab)),
        number,
    }
}

/// The ranks of the triangles, in their order.
fn ranks_of(
    alloc: Global,
    slab: &Slab,
    triangles: &[Tri],
    active: &[Span],
) -> Result<Vec<Rank>, AllocError>
    requires slab { IsTileSlab slab.now }
    requires triangles { All IsTileTri triangles.now }
    requires active { All (λ s. IsActive slab.now triangles.now s.number) active.now }
    ensures { IfOk result (λ ranks. AllZip (λ s r. IsRankAt slab.now triangles.now s.number r) active.now ranks.items) }
{
    let mut ranks = Vec::with_capacity(alloc, active.len())?;
    for span in active {
        ranks.push(rank_at(slab, triangles, span.number))?;
    }
    Ok(ranks)
}

/// The members of the ranks, in their order.
fn members_of(
    alloc: Global,
    slab: &Slab,
    triangles: &[Tri],
    ranks: &[Rank],
) -> Result<Vec<Member>, AllocError>
    requires slab { IsTileSlab slab.now }
    requires triangles { All IsTileTri triangles.now }
    requires active { All (λ r. IsActive slab.now triangles.now r.number) ranks.now }
    ensures { IfOk result (λ members. AreMembersAt slab.now triangles.now ranks.now members.items) }
{
    let mut members = Vec::with_capacity(alloc, ranks.len())?;
    for rank in ranks {
        let tri = &triangles[rank.number as usize];
        members.push(Member {
            number: rank.number,
            tri: *tri,
            left: left_of(tri, slab),
            right: right_of(tri, slab),
        })?;
    }
    Ok(members)
}

/// The members of a slab in order, from all triangles that reach through it, each once.
pub(crate) fn slab_members(
    alloc: Global,
    slab: &Slab,
    triangles: &[Tri],
    active: &[Span],
) -> Result<Vec<Member>, AllocError>
    requires slab { IsTileSlab slab.now }
    requires triangles { All IsTileTri triangles.now }
    requires active { All (λ s. IsActive slab.now triangles.now s.number) active.now }
    requires once { IsEachOnce active.now }
    requires all { AreAll slab.now triangles.now active.now }
    ensures members { IfOk result (λ members. AreMembers slab.now triangles.now members.items) }
    ensures on_tile { IfOk result (λ members. All (IsTileMember slab.now) members.items) }
    ensures count { IfOk result (λ members. length members.items ≡ length active.now) }
{
    let mut ranks = ranks_of(alloc, slab, triangles, active)?;
    sort_ranks(&mut ranks);
    members_of(alloc, slab, triangles, &ranks)
}
