// Intervals of whole numbers, in units of 2^-48, and their operations, rounded outward.
ghost use Rattle.std.specs.Prelude.{◌≡◌, ℕ, ℤ, ◌+◌, ◌*◌, ◌^◌, ◌<◌, ◌≤◌, pos, neg_ℤ, ◌≤ℤ◌, ◌<ℤ◌, ◌*ℤ◌};
ghost use Rattle.std.specs.Prelude.{unsigned_abs, int_lt, if◌then◌else◌};
ghost use Rattle.terrain_base.specs.Division.{floor_of, ceil_of, root_of};
ghost use Rattle.whole_interval.specs.Fraction.{Fraction, plus, minus, times, over_whole, over};
ghost use Rattle.whole_interval.specs.Interval.{IntervalHolds, IsWithin, IsRootUp, least_of, greatest_of};
ghost use Rattle.whole_interval.specs.Interval.{root_up_of, add_of, sub_of, mul_of, div_whole_of};
ghost use Rattle.whole_interval.specs.Interval.{div_pos_of, sqrt_of, negated_of};

use terrain_base::{ceil_div, floor_div, isqrt};

/// The number 1 as an end: 2^48.
pub const ONE: i128 = 0x1_0000_0000_0000;

/// The numbers from lo / 2^48 to hi / 2^48. Each operation takes and gives lo at most hi.
#[derive(Clone, Copy, Debug, PartialEq, Eq)]
pub struct Interval {
    pub lo: i128,
    pub hi: i128,
}

/// The sums, for ends of at most 2^100 in size. The result has all sums of a number of a and one of b.
pub fn add(a: &Interval, b: &Interval) -> Interval
    requires a { IsWithin 100 a.now }
    requires b { IsWithin 100 b.now }
    ensures exact { result ≡ add_of a.now b.now }
    ensures ordered { result.lo ≤ℤ result.hi }
    ensures encloses { (f g : Fraction) → IntervalHolds a.now f → IntervalHolds b.now g
        → IntervalHolds result (plus f g) }
{
    Interval {
        lo: a.lo + b.lo,
        hi: a.hi + b.hi,
    }
}

/// The differences, for ends of at most 2^100 in size.
pub fn sub(a: &Interval, b: &Interval) -> Interval
    requires a { IsWithin 100 a.now }
    requires b { IsWithin 100 b.now }
    ensures exact { result ≡ sub_of a.now b.now }
    ensures ordered { result.lo ≤ℤ result.hi }
    ensures encloses { (f g : Fraction) → IntervalHolds a.now f → IntervalHolds b.now g
        → IntervalHolds result (minus f g) }
{
    Interval {
        lo: a.lo - b.hi,
        hi: a.hi - b.lo,
    }
}

// The least of four, over 2^48 and rounded down.
fn least_over(p: i128, q: i128, r: i128, s: i128) -> i128
    ensures { result ≡ floor_of (least_of p q r s) (pos (2 ^ 48)) }
{
    floor_div(p.min(q).min(r.min(s)), ONE)
}

// The greatest of four, over 2^48 and rounded up.
fn greatest_over(p: i128, q: i128, r: i128, s: i128) -> i128
    ensures { result ≡ ceil_of (greatest_of p q r s) (pos (2 ^ 48)) }
{
    ceil_div(p.max(q).max(r.max(s)), ONE)
}

/// The products, for ends of a of at most 2^76 in size, and of b of at most 2^50.
pub fn mul(a: &Interval, b: &Interval) -> Interval
    requires a { IsWithin 76 a.now }
    requires b { IsWithin 50 b.now }
    ensures exact { result ≡ mul_of a.now b.now }
    ensures ordered { result.lo ≤ℤ result.hi }
    ensures encloses { (f g : Fraction) → IntervalHolds a.now f → IntervalHolds b.now g
        → IntervalHolds result (times f g) }
{
    let p = a.lo * b.lo;
    let q = a.lo * b.hi;
    let r = a.hi * b.lo;
    let s = a.hi * b.hi;
    Interval {
        lo: least_over(p, q, r, s),
        hi: greatest_over(p, q, r, s),
    }
}

// A number over a whole number, rounded down.
fn over_down(a: i128, k: u32) -> i128
    requires { 0 < k }
    ensures { result ≡ floor_of a (pos k) }
{
    floor_div(a, k as i128)
}

// A number over a whole number, rounded up.
fn over_up(a: i128, k: u32) -> i128
    requires { 0 < k }
    ensures { result ≡ ceil_of a (pos k) }
{
    ceil_div(a, k as i128)
}

/// The quotients by a whole number above 0.
pub fn div_whole(a: &Interval, k: u32) -> Interval
    requires ordered { a.now.lo ≤ℤ a.now.hi }
    requires divisor { 0 < k }
    ensures exact { result ≡ div_whole_of a.now k }
    ensures ordered { result.lo ≤ℤ result.hi }
    ensures encloses { (f : Fraction) → IntervalHolds a.now f → IntervalHolds result (over_whole f k) }
{
    Interval {
        lo: over_down(a.lo, k),
        hi: over_up(a.hi, k),
    }
}

// The least quotient of a by a number of b, rounded down.
fn quotient_low(a: i128, b: &Interval) -> i128
    requires low { neg_ℤ (pos (2 ^ 76)) ≤ℤ a }
    requires high { a ≤ℤ pos (2 ^ 76) }
    requires divisor { pos 0 <ℤ b.now.lo }
    requires ordered { b.now.lo ≤ℤ b.now.hi }
    ensures { result ≡ floor_of (a *ℤ pos (2 ^ 48)) (if int_lt a (pos 0) then b.now.lo else b.now.hi) }
{
    if a < 0 {
        floor_div(a * ONE, b.lo)
    } else {
        floor_div(a * ONE, b.hi)
    }
}

// The greatest quotient of a by a number of b, rounded up.
fn quotient_high(a: i128, b: &Interval) -> i128
    requires low { neg_ℤ (pos (2 ^ 76)) ≤ℤ a }
    requires high { a ≤ℤ pos (2 ^ 76) }
    requires divisor { pos 0 <ℤ b.now.lo }
    requires ordered { b.now.lo ≤ℤ b.now.hi }
    ensures { result ≡ ceil_of (a *ℤ pos (2 ^ 48)) (if int_lt a (pos 0) then b.now.hi else b.now.lo) }
{
    if a < 0 {
        ceil_div(a * ONE, b.hi)
    } else {
        ceil_div(a * ONE, b.lo)
    }
}

/// The quotients, for b above 0 and ends of a of at most 2^76 in size.
pub fn div_pos(a: &Interval, b: &Interval) -> Interval
    requires a { IsWithin 76 a.now }
    requires divisor { pos 0 <ℤ b.now.lo }
    requires ordered { b.now.lo ≤ℤ b.now.hi }
    ensures exact { result ≡ div_pos_of a.now b.now }
    ensures ordered { result.lo ≤ℤ result.hi }
    ensures encloses { (f g : Fraction) → IntervalHolds a.now f → IntervalHolds b.now g
        → IntervalHolds result (over f g) }
{
    Interval {
        lo: quotient_low(a.lo, b),
        hi: quotient_high(a.hi, b),
    }
}

// The square root of a number from 0 on over 2^48, rounded down, in units of 2^-48.
fn root_low(z: i128) -> i128
    requires low { pos 0 ≤ℤ z }
    requires high { z ≤ℤ pos (2 ^ 50) }
    ensures { result ≡ pos (root_of (unsigned_abs z * 2 ^ 48)) }
{
    isqrt(z.unsigned_abs() * ONE.unsigned_abs()) as i128
}

// The least whole number whose square is at least n.
fn root_up(n: u128) -> u128
    requires { n < 2 ^ 126 }
    ensures exact { result ≡ root_up_of n }
    ensures few { result ≤ 2 ^ 64 }
{
    let root = isqrt(n);
    if root * root == n { root } else { root + 1 }
}

// The square root of a number from 0 on over 2^48, rounded up, in units of 2^-48.
fn root_high(z: i128) -> i128
    requires low { pos 0 ≤ℤ z }
    requires high { z ≤ℤ pos (2 ^ 50) }
    ensures { result ≡ pos (root_up_of (unsigned_abs z * 2 ^ 48)) }
{
    root_up(z.unsigned_abs() * ONE.unsigned_abs()) as i128
}

/// The square roots, for lo from 0 on and hi of at most 2^50. The result has all fractions from 0 on whose
/// square is in a.
pub fn sqrt(a: &Interval) -> Interval
    requires low { pos 0 ≤ℤ a.now.lo }
    requires ordered { a.now.lo ≤ℤ a.now.hi }
    requires high { a.now.hi ≤ℤ pos (2 ^ 50) }
    ensures exact { result ≡ sqrt_of a.now }
    ensures root_up { IsRootUp (unsigned_abs a.now.hi * 2 ^ 48) (unsigned_abs result.hi) }
    ensures ordered { result.lo ≤ℤ result.hi }
    ensures encloses { (f : Fraction) → pos 0 ≤ℤ f.numerator → IntervalHolds a.now (times f f)
        → IntervalHolds result f }
{
    Interval {
        lo: root_low(a.lo),
        hi: root_high(a.hi),
    }
}
