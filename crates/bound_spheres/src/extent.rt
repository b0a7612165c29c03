// What boxes span.
ghost use Rattle.std.specs.Prelude.{◌≡◌, ◌<◌, All, length};
ghost use Rattle.ecef_boxes.specs.Bounds.{IsBoxWithin};
ghost use Rattle.bound_spheres.specs.Hull.{IsHull, join_of};

use ecef_boxes::EcefBox;

// The least box that has both.
fn join(a: &EcefBox, b: &EcefBox) -> EcefBox
    ensures { result ≡ join_of a.now b.now }
{
    EcefBox {
        x_lo: a.x_lo.min(b.x_lo),
        x_hi: a.x_hi.max(b.x_hi),
        y_lo: a.y_lo.min(b.y_lo),
        y_hi: a.y_hi.max(b.y_hi),
        z_lo: a.z_lo.min(b.z_lo),
        z_hi: a.z_hi.max(b.z_hi),
    }
}

/// The least box that has all boxes.
pub fn hull(boxes: &[EcefBox]) -> EcefBox
    requires some { 0 < length boxes.now }
    requires size { All (IsBoxWithin 33) boxes.now }
    ensures hull { IsHull boxes.now result }
    ensures size { IsBoxWithin 33 result }
{
    let mut hull = boxes[0];
    for next in boxes {
        hull = join(&hull, next);
    }
    hull
}
