// Boxes of places all over the globe.
ghost use Rattle.tms_tree.specs.Place.{IsPlace};

use ecef_boxes::frame_box;
use tms_tree::Place;

// The places are of the unit of a degree's 1/2^20th part.
const UNIT: u64 = 1 << 20;

// A place far from that of the number before.
fn place(k: u32) -> Place
    ensures { IsPlace result }
{
    Place {
        p: u64::from(k) * 7919 % (2 * UNIT),
        q: u64::from(k) * 104_729 % UNIT,
        d: UNIT,
    }
}

/// The sum of the ends of so many boxes, modulo 2^64.
pub(crate) fn sum(count: u32) -> u64 {
    let mut sum: u64 = 0;
    for k in 0..count {
        let ends = frame_box(place(k), (k % 16_000) as i16);
        sum = sum.wrapping_add(ends.x_lo.unsigned_abs());
        sum = sum.wrapping_add(ends.y_lo.unsigned_abs());
        sum = sum.wrapping_add(ends.z_hi.unsigned_abs());
    }
    sum
}
