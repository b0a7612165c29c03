// The sweep from slab to slab, south to north.

ghost use Rattle.std.specs.Prelude.{◌≡◌, ◌^◌, ◌<◌, pos, None, length, All, IfOk, IfSome, OnOk, MatchOption};
ghost use Rattle.mesh_plane.specs.Plane.{IsCounterClockwise};
ghost use Rattle.mesh_check.specs.Slab.{west, Joined, IsTileSlab};
ghost use Rattle.mesh_check.specs.Members.{IsSlab, HasHeights, IsTileMember, IsCodeMember};
ghost use Rattle.mesh_check.specs.Findings.{slab_of};
ghost use Rattle.mesh_check.specs.Spans.{AreBegun};
ghost use Rattle.mesh_check.specs.Level.{AreBeside};
ghost use Rattle.mesh_check.specs.Sweep.{levels_in, IsCourse, IsLayer, IsBelow, AreSeen, told};
ghost use Rattle.mesh_check.specs.Sweep.{IsStepOf, Agrees, Disagrees, IsToldOf};

use crate::active::{Active, go_on};
use crate::level::is_level;
use crate::member::Member;
use crate::order::slab_members;
use crate::slab::Slab;
use crate::span::Span;
use crate::verdict::{Finding, Verdict};
use crate::walk::{first_gap, first_step};
use mesh_plane::Tri;
use std::alloc::{AllocError, Global};

/// What a sweep goes over: the levels, ascending, the triangles, and their spans by their low ends.
#[derive(Drop)]
pub struct Course {
    pub levels: Vec<u16>,
    pub triangles: Vec<Tri>,
    pub spans: Vec<Span>,
}

/// A slab with its members in order.
#[derive(Drop)]
pub struct Layer {
    pub slab: Slab,
    pub members: Vec<Member>,
}

/// The first step of heights, and the first level that disagrees. Where there is a step, the level means
/// nothing.
#[derive(Clone, Copy, Debug, PartialEq, Eq)]
pub struct Seen {
    pub step: Option<Finding>,
    pub line: Option<u16>,
}

/// The slab between two levels.
fn slab_between(low: u16, high: u16) -> Slab
    ensures { result ≡ slab_of low high }
{
    Slab {
        low: i64::from(low),
        high: i64::from(high),
    }
}

/// The first step of heights in a slab.
fn step_in(above: &Layer, low: u16, high: u16) -> Option<Finding>
    requires slab { IsTileSlab above.now.slab }
    requires few { length above.now.members.items < 2 ^ 32 }
    requires each { All (IsTileMember above.now.slab) above.now.members.items }
    requires codes { All IsCodeMember above.now.members.items }
    requires turned { All (λ m. IsCounterClockwise m.tri) above.now.members.items }
    requires joined { Joined above.now.slab west above.now.members.items }
    ensures step { IfSome result (λ finding. IsStepOf above.now low high finding) }
    ensures none { result ≡ None → HasHeights above.now.slab above.now.members.items }
{
    match first_step(&above.slab, &above.members) {
        Some(place) => Some(Finding::HeightGap { low, high, place }),
        None => None,
    }
}

/// The level where the slabs below and above it disagree on it. At the south edge there is none below.
fn line_at(v: u16, below: &Option<Layer>, above: &Layer) -> Option<u16>
    requires beside { IfSome below.now (λ layer. AreBeside (pos v) layer.members.items above.now.members.items) }
    ensures agrees { result ≡ None → Agrees v below.now above.now }
    ensures differs { IfSome result (λ at. (at ≡ v) × Disagrees v below.now above.now) }
{
    let below = below.as_ref()?;
    if is_level(i64::from(v), &below.members, &above.members) {
        None
    } else {
        Some(v)
    }
}

impl Course {
    /// The slab between two neighbouring levels, with its members.
    fn layer(
        &self,
        alloc: Global,
        active: &mut Active,
        low: u16,
        high: u16,
    ) -> Result<Layer, AllocError>
        requires course { IsCourse self.now }
        requires is { IsSlab (levels_in self.now) (slab_of low high) }
        requires begun { AreBegun self.now.spans.items active.old low }
        ensures layer { IfOk result (IsLayer self.now low high) }
        ensures begun { OnOk result (AreBegun self.now.spans.items active.new high) }
    {
        let slab = slab_between(low, high);
        go_on(active, &self.spans, low, high)?;
        let members = slab_members(alloc, &slab, &self.triangles, &active.spans)?;
        Ok(Layer { slab, members })
    }

    /// What is seen up to the end of a slab, from what was seen up to its begin. After a step only gaps count.
    fn look(&self, seen: Seen, below: &Option<Layer>, above: &Layer, low: u16, high: u16) -> Seen
        requires course { IsCourse self.now }
        requires layer { IsLayer self.now low high above.now }
        requires joined { Joined above.now.slab west above.now.members.items }
        requires below { MatchOption below.now (low ≡ 0) (IsBelow self.now low) }
        requires seen { AreSeen (levels_in self.now) self.now.triangles.items seen low }
        ensures { AreSeen (levels_in self.now) self.now.triangles.items result high }
    {
        if seen.step.is_some() {
            return seen;
        }
        let step = step_in(above, low, high);
        if seen.line.is_some() {
            return Seen {
                step,
                line: seen.line,
            };
        }
        Seen {
            step,
            line: line_at(low, below, above),
        }
    }

    /// The verdict on counter-clockwise triangles. A gap ends the sweep; a step of heights or a level that
    /// disagrees is kept, since a gap further north comes before it.
    pub(crate) fn sweep(&self, alloc: Global) -> Result<Verdict, AllocError>
        requires { IsCourse self.now }
        ensures { IfOk result (IsToldOf self.now) }
    {
        let mut active = Active {
            spans: Vec::new(alloc),
            next: 0,
        };
        let mut below = None;
        let mut seen = Seen {
            step: None,
            line: None,
        };
        for place in 1..self.levels.len() {
            let (low, high) = (self.levels[place - 1], self.levels[place]);
            let above = self.layer(alloc, &mut active, low, high)?;
            if let Some(place) = first_gap(&above.slab, &above.members) {
                return Ok(Verdict::Found(Finding::SlabGap { low, high, place }));
            }
            seen = self.look(seen, &below, &above, low, high);
            below = Some(above);
        }
        Ok(verdict_of(seen))
    }
}

/// The verdict where no slab has a gap.
fn verdict_of(seen: Seen) -> Verdict
    ensures { result ≡ told seen }
{
    match (seen.step, seen.line) {
        (Some(step), _) => Verdict::Found(step),
        (None, Some(v)) => Verdict::Found(Finding::LineDisagrees { v }),
        (None, None) => Verdict::Good,
    }
}
