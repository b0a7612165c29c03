//! How far a height of an edge lies from a straight line between two others.

ghost use Rattle.std.specs.Prelude.{◌≡◌, ℤ, pos, suc, ◌*ℤ◌, ◌-◌, ◌<◌, ◌≤◌, ◌^◌, length, unsigned_abs};
ghost use Rattle.edge_decimate.specs.Straight.{height_at, length_of, gap_of, is_near, are_near};

use terrain_base::grid_line;

/// A product that fits: both factors are of 16 bits.
fn product(a: i64, b: i64) -> i64
    requires left { unsigned_abs a ≤ 2 ^ 16 }
    requires right { unsigned_abs b ≤ 2 ^ 16 }
    ensures value { result ≡ a *ℤ b }
    ensures size { unsigned_abs result ≤ 2 ^ 32 }
{
    a * b
}

/// The length from one grid line to another, in tile units.
fn length_from(a: u8, b: u8) -> i64
    requires order { a ≤ b }
    requires end { b ≤ 66 }
    ensures value { result ≡ length_of a b }
    ensures size { unsigned_abs result ≤ 2 ^ 16 }
{
    let from = grid_line(a) as i64;
    let to = grid_line(b) as i64;
    to - from
}

/// A height of the line times a length.
fn weighed(line: &[i16], i: u8, span: i64) -> i64
    requires full { length line.now ≡ 67 }
    requires end { i ≤ 66 }
    requires size { unsigned_abs span ≤ 2 ^ 16 }
    ensures value { result ≡ height_at line.now i *ℤ span }
    ensures size { unsigned_abs result ≤ 2 ^ 32 }
{
    product(line[i as usize] as i64, span)
}

/// How far the height at `i` lies above the straight line from the height at `a` to that at `b`, times the
/// length from `a` to `b`.
fn gap_at(line: &[i16], a: u8, b: u8, i: u8) -> i64
    requires full { length line.now ≡ 67 }
    requires from { a < i }
    requires to { i < b }
    requires end { b ≤ 66 }
    ensures value { result ≡ gap_of line.now a b i }
    ensures size { unsigned_abs result ≤ 2 ^ 34 }
{
    let here = weighed(line, i, length_from(a, b));
    let first = weighed(line, a, length_from(i, b));
    let last = weighed(line, b, length_from(a, i));
    here - (first + last)
}

/// Whether the height at `i` is within the tolerance of the straight line.
fn near(line: &[i16], tol: u16, a: u8, b: u8, i: u8) -> bool
    requires full { length line.now ≡ 67 }
    requires from { a < i }
    requires to { i < b }
    requires end { b ≤ 66 }
    ensures { result ≡ is_near line.now tol a b i }
{
    let gap = gap_at(line, a, b, i);
    let limit = product(tol as i64, length_from(a, b));
    gap <= limit && -gap <= limit
}

/// Whether all heights strictly between are within the tolerance of the straight line.
pub(crate) fn all_near(line: &[i16], tol: u16, a: u8, b: u8) -> bool
    requires full { length line.now ≡ 67 }
    requires order { a < b }
    requires end { b ≤ 66 }
    ensures { result ≡ are_near line.now tol a b }
{
    for i in a + 1..b {
        if !near(line, tol, a, b, i) {
            return false;
        }
    }
    true
}
