// The triangles that reach through a slab, kept from slab to slab.

ghost use Rattle.std.specs.Prelude.{◌≡◌, ◌≤◌, ◌<◌, length, filter, OnOk};
ghost use Rattle.mesh_check.specs.Spans.{reaches_up, AreBegun, AreTaken, IsRest, AreThrough};

use crate::span::Span;
use std::alloc::AllocError;

/// Of the first `next` spans, those that are not passed.
#[derive(Drop)]
pub struct Active {
    pub spans: Vec<Span>,
    pub next: usize,
}

/// Takes up the triangles that begin at the level or below it.
fn take_up(active: &mut Active, spans: &[Span], low: u16) -> Result<(), AllocError>
    requires { active.old.next ≤ length spans.now }
    ensures taken { OnOk result (AreTaken spans.now active.old active.new low active.new.next) }
    ensures rest { OnOk result (IsRest spans.now low active.new.next) }
{
    for next in active.next..spans.len() {
        if spans[next].low > low {
            return Ok(());
        }
        active.spans.push(spans[next])?;
        active.next = next + 1;
    }
    Ok(())
}

/// Lets go the triangles that end below the level.
fn let_go(active: &mut Active, high: u16)
    ensures items { active.new.spans.items ≡ filter (reaches_up high) active.old.spans.items }
    ensures next { active.new.next ≡ active.old.next }
{
    active.spans.retain(|span| high <= span.high);
}

/// Goes on from the slab below the lower level to the slab above it.
pub(crate) fn go_on(
    active: &mut Active,
    spans: &[Span],
    low: u16,
    high: u16,
) -> Result<(), AllocError>
    requires begun { AreBegun spans.now active.old low }
    requires order { low < high }
    ensures { OnOk result (AreThrough spans.now active.new low high) }
{
    take_up(active, spans, low)?;
    let_go(active, high);
    Ok(())
}
