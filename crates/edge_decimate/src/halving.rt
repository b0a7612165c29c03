//! Halving an edge until each part is straight.

ghost use Rattle.std.specs.Prelude.{◌≡◌, ◌-◌, ◌<◌, ◌≤◌, length};
ghost use Rattle.edge_decimate.specs.KeptPoints.{kept_between};
ghost use Rattle.edge_decimate.specs.KeptLine.{set_all};

use crate::straight::all_near;

/// Sets the bits of the kept points strictly between `a` and `b`.
pub(crate) fn mark(line: &[i16], tol: u16, a: u8, b: u8, bits: &mut [bool])
    requires full { length line.now ≡ 67 }
    requires order { a < b }
    requires end { b ≤ 66 }
    requires room { length bits.old ≡ 67 }
    ensures { bits.new ≡ set_all bits.old (kept_between (b - a) line.now tol a b) }
{
    if all_near(line, tol, a, b) {
        return;
    }
    let middle = (a + b) / 2;
    mark(line, tol, a, middle, bits);
    bits[middle as usize] = true;
    mark(line, tol, middle, b, bits);
}
