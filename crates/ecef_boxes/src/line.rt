// Meridians and parallels, so that the boxes of a grid share the work of its lines.
ghost use Rattle.std.specs.Prelude.{◌≡◌, ◌*◌, ◌^◌, ◌<◌, ◌≤◌, ◌≤ℤ◌, neg_ℤ, pos};
ghost use Rattle.ecef_boxes.specs.Bounds.{IsBoxWithin, IsInside};
ghost use Rattle.ecef_boxes.specs.Box.{box_of, radii_at};
ghost use Rattle.ecef_boxes.specs.Ellipsoid.{Encloses};
ghost use Rattle.ecef_boxes.specs.Lines.{IsMeridian, IsParallel, crossing, meridian_of, parallel_of};

use crate::EcefBox;
use crate::ellipsoid::{along_axis, from_axis, radii};
use crate::frame::{ends, latitude, longitude, sideways};
use tms_tree::Place;
use whole_interval::{Interval, SineCosine};

/// The meridian `p * 180 / d` degrees east of 180 degrees west, with bounds of its sine and cosine.
#[derive(Clone, Copy, Debug, PartialEq, Eq)]
pub struct Meridian {
    pub p: u64,
    pub d: u64,
    pub turn: SineCosine,
}

/// The parallel `q * 180 / d` degrees north of the south pole, with bounds of its sine and cosine and of the radius
/// of curvature in the prime vertical.
#[derive(Clone, Copy, Debug, PartialEq, Eq)]
pub struct Parallel {
    pub q: u64,
    pub d: u64,
    pub turn: SineCosine,
    pub radii: Interval,
}

impl Meridian {
    /// The meridian of these numbers of a place.
    pub fn at(p: u64, d: u64) -> Meridian
        requires positive { 0 < d }
        requires fine { d ≤ 2 ^ 29 }
        requires turn { p ≤ 2 * d }
        ensures exact { result ≡ meridian_of p d }
        ensures bounds { IsMeridian result }
    {
        Meridian {
            p,
            d,
            turn: longitude(Place { p, q: 0, d }),
        }
    }
}

impl Parallel {
    /// The parallel of these numbers of a place.
    pub fn at(q: u64, d: u64) -> Parallel
        requires positive { 0 < d }
        requires fine { d ≤ 2 ^ 29 }
        requires pole { q ≤ d }
        ensures exact { result ≡ parallel_of q d }
        ensures bounds { IsParallel result }
    {
        let turn = latitude(Place { p: 0, q, d });
        Parallel {
            q,
            d,
            turn,
            radii: radii(&turn.sine),
        }
    }
}

/// The box of `frame_box` for the place where the two cross.
pub fn box_at(meridian: &Meridian, parallel: &Parallel, metres: i16) -> EcefBox
    requires meridian { IsMeridian meridian.now }
    requires parallel { IsParallel parallel.now }
    requires units { meridian.now.d ≡ parallel.now.d }
    requires low { neg_ℤ (pos 16000) ≤ℤ metres }
    requires high { metres ≤ℤ pos 16000 }
    ensures exact { result ≡ box_of (crossing meridian.now parallel.now) metres }
    ensures encloses { Encloses (crossing meridian.now parallel.now) metres
        (radii_at (crossing meridian.now parallel.now)) result }
    ensures size { IsBoxWithin 31 result }
{
    let out = from_axis(&parallel.radii, metres as i128, &parallel.turn.cosine);
    ends(
        &sideways(&out, &meridian.turn.cosine),
        &sideways(&out, &meridian.turn.sine),
        &along_axis(&parallel.radii, metres as i128, &parallel.turn.sine),
    )
}
