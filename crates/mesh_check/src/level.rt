// The walk along a level, over the members of the slab below it and those of the slab above.

ghost use Rattle.std.specs.Prelude.{◌≡◌, ◌↔◌, ◌⊎◌, ◌+◌, ◌^◌, ◌<◌, ◌≤◌, ℤ, pos, ◌*ℤ◌, ◌≤ℤ◌, IsTrue, false, length};
ghost use Rattle.std.specs.Prelude.{unsigned_abs};
ghost use Rattle.mesh_plane.specs.Surface.{lift_of, gap_under};
ghost use Rattle.mesh_check.specs.Slab.{over, under, SameAt};
ghost use Rattle.mesh_check.specs.Members.{HoldsEnd};
ghost use Rattle.mesh_check.specs.Level.{IsCodeTri, Meets, east_by, AreBeside, IsWitnessed, IsBreak, Overlap, Meeting};
ghost use Rattle.mesh_check.specs.Level.{Later, IsNext};

use crate::member::Member;
use crate::slab::{Segment, across, rise};
use mesh_plane::{Gap, Tri, plane_height};

/// The place of a member of the slab below, and that of one of the slab above.
#[derive(Clone, Copy, Debug, PartialEq, Eq)]
pub struct Pair {
    pub lower: usize,
    pub upper: usize,
}

/// How far the second segment is east of the first on the level, times both their rises.
fn ahead(v: i64, from: &Segment, to: &Segment) -> i64
    requires from { Meets v from.now }
    requires to { Meets v to.now }
    ensures value { result ≡ east_by v from.now to.now }
    ensures size { unsigned_abs result ≤ 2 ^ 46 }
{
    across(to, v) * rise(from) - across(from, v) * rise(to)
}

/// The height of a triangle where the segment meets the level.
fn height_at(v: i64, end: &Segment, tri: &Tri) -> Gap
    requires end { Meets v end.now }
    requires tri { IsCodeTri tri.now }
    requires holds { HoldsEnd end.now v tri.now }
    ensures over { result.over ≡ lift_of tri.now (under end.now) (over end.now v) (under end.now *ℤ v) }
    ensures under { result.under ≡ gap_under tri.now (under end.now) }
    ensures low { pos 0 ≤ℤ result.over }
    ensures high { result.over ≤ℤ pos 2305843009213693952 }
    ensures least { pos 1 ≤ℤ result.under }
    ensures greatest { result.under ≤ℤ pos 70368744177664 }
{
    let scale = rise(end);
    plane_height(tri, scale, across(end, v), scale * v)
}

/// Whether both triangles have one height where the segment meets the level.
fn same_height(v: i64, end: &Segment, first: &Tri, second: &Tri) -> bool
    requires end { Meets v end.now }
    requires first_code { IsCodeTri first.now }
    requires second_code { IsCodeTri second.now }
    requires first_holds { HoldsEnd end.now v first.now }
    requires second_holds { HoldsEnd end.now v second.now }
    ensures { IsTrue result ↔ SameAt end.now v first.now second.now }
{
    let first = height_at(v, end, first);
    let second = height_at(v, end, second);
    first.over * second.under == second.over * first.under
}

/// Whether both members have one height where the segment meets the level. One triangle agrees with itself.
fn agree(v: i64, end: &Segment, lower: &Member, upper: &Member) -> bool
    requires meeting { Meeting v lower.now upper.now }
    requires end { Meets v end.now }
    requires lower_holds { HoldsEnd end.now v lower.now.tri }
    requires upper_holds { HoldsEnd end.now v upper.now.tri }
    ensures { IsTrue result ↔ SameAt end.now v lower.now.tri upper.now.tri }
{
    lower.number == upper.number || same_height(v, end, &lower.tri, &upper.tri)
}

/// The left segment of the member that begins later on the level.
fn later_left(v: i64, lower: &Member, upper: &Member) -> Segment
    requires { Meeting v lower.now upper.now }
    ensures { Later v lower.now upper.now result }
{
    if ahead(v, &lower.left, &upper.left) >= 0 {
        upper.left
    } else {
        lower.left
    }
}

/// The next place, where there is one and it is to go on.
fn after(place: usize, count: usize, goes: bool) -> usize
    requires { place < count }
    ensures by { (result ≡ place) ⊎ ((result ≡ place + 1) × IsTrue goes) }
    ensures within { result < count }
    ensures on { IsTrue goes → place + 1 < count → result ≡ place + 1 }
{
    if goes && place + 1 < count {
        place + 1
    } else {
        place
    }
}

/// The next two members that overlap on the level: the one that ends first there is passed, both where
/// they end together, but never the last of its slab.
fn next(v: i64, lower: &[Member], upper: &[Member], at: Pair) -> Pair
    requires beside { AreBeside v lower.now upper.now }
    requires overlap { Overlap v lower.now upper.now at }
    requires more { (at.lower + 1 < length lower.now) ⊎ (at.upper + 1 < length upper.now) }
    ensures { IsNext v lower.now upper.now at result }
{
    let ahead = ahead(v, &lower[at.lower].right, &upper[at.upper].right);
    Pair {
        lower: after(at.lower, lower.len(), ahead >= 0),
        upper: after(at.upper, upper.len(), ahead <= 0),
    }
}

/// Whether the slabs below and above the level have one height at each end on it: at each left end of both,
/// and at the east edge, where the last ones end. Two members that overlap are compared where the later one
/// begins, so each left end is met once.
pub(crate) fn is_level(v: i64, lower: &[Member], upper: &[Member]) -> bool
    requires { AreBeside v lower.now upper.now }
    ensures yes { IsTrue result → IsWitnessed v lower.now upper.now }
    ensures no { result ≡ false → IsBreak v lower.now upper.now }
{
    let mut at = Pair { lower: 0, upper: 0 };
    while at.lower + 1 < lower.len() || at.upper + 1 < upper.len() {
        let (below, above) = (&lower[at.lower], &upper[at.upper]);
        if !agree(v, &later_left(v, below, above), below, above) {
            return false;
        }
        at = next(v, lower, upper, at);
    }
    let (below, above) = (&lower[at.lower], &upper[at.upper]);
    agree(v, &later_left(v, below, above), below, above) && agree(v, &below.right, below, above)
}
