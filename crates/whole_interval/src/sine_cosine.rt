// Bounds of the sine and the cosine of pi * n / d, by partial sums of their series.
ghost use Rattle.std.specs.Prelude.{◌≡◌, ℕ, ℤ, ◌+◌, ◌*◌, ◌^◌, ◌<◌, ◌≤◌, pos, neg_ℤ, ◌≤ℤ◌, ◌<ℤ◌, ◌*ℤ◌};
ghost use Rattle.std.specs.Prelude.{unsigned_abs};
ghost use Rattle.whole_interval.specs.Fraction.{Fraction};
ghost use Rattle.whole_interval.specs.Interval.{IntervalHolds, IsWithin, negated_of};
ghost use Rattle.whole_interval.specs.HalfTurn.{IsUpTo, angle_of, next_of, alternated_of, series_of};
ghost use Rattle.whole_interval.specs.HalfTurn.{octant_sine_of, octant_cosine_of, quarter_sine_of};
ghost use Rattle.whole_interval.specs.HalfTurn.{quarter_cosine_of, turned_of, turn_of, half_turn_of};
ghost use Rattle.whole_interval.specs.HalfTurn.{one_of};
ghost use Rattle.whole_interval.specs.Sine.{IsSine, IsCosine};

use crate::interval::{Interval, ONE, add, div_whole, mul, sub};

/// Bounds of the sine and of the cosine of an angle.
#[derive(Clone, Copy, Debug, PartialEq, Eq)]
pub struct SineCosine {
    pub sine: Interval,
    pub cosine: Interval,
}

// Pi lies between 314159265358979323846 and 314159265358979323847 over 10^20. In units of 2^-48 it is
// therefore from the first of these, which is rounded down, to the second, which is rounded up.
const SCALE: u128 = 0x1_0000_0000_0000;

const DIGITS: u128 = 100_000_000_000_000_000_000;

const PI_LOW: u128 = 314_159_265_358_979_323_846 * SCALE / DIGITS;

const PI_HIGH: u128 = 314_159_265_358_979_323_847 * SCALE / DIGITS + 1;

// The angle pi * t / (2 * d).
fn angle(t: u128, d: u128) -> Interval
    requires positive { 0 < d }
    requires few { d ≤ 2 ^ 30 }
    requires octant { 2 * t ≤ d }
    ensures exact { result ≡ angle_of t d }
    ensures size { IsUpTo 48 result }
{
    Interval {
        lo: (PI_LOW * t / (2 * d)) as i128,
        hi: (PI_HIGH * t).div_ceil(2 * d) as i128,
    }
}

// The next term of a series.
fn next(term: &Interval, square: &Interval, from: u32, j: u32) -> Interval
    requires term { IsUpTo 48 term.now }
    requires square { IsUpTo 48 square.now }
    requires positive { 0 < from }
    requires from { from ≤ 2 }
    requires few { j < 8 }
    ensures { result ≡ next_of term.now square.now from j }
{
    div_whole(&mul(term, square), (2 * j + from) * (2 * j + from + 1))
}

// The sum with one more term.
fn alternated(sum: &Interval, term: &Interval, j: u32) -> Interval
    requires sum { IsWithin 50 sum.now }
    requires term { IsUpTo 48 term.now }
    ensures { result ≡ alternated_of sum.now term.now j }
{
    if j % 2 == 0 {
        sub(sum, term)
    } else {
        add(sum, term)
    }
}

// From the partial sum of eight terms to that of nine.
fn series(first: &Interval, square: &Interval, from: u32) -> Interval
    requires first { IsUpTo 48 first.now }
    requires square { IsUpTo 48 square.now }
    requires positive { 0 < from }
    requires from { from ≤ 2 }
    ensures { result ≡ series_of first.now square.now from }
{
    let mut term = *first;
    let mut eight = *first;
    for j in 0..7 {
        term = next(&term, square, from, j);
        eight = alternated(&eight, &term, j);
    }
    let nine = alternated(&eight, &next(&term, square, from, 7), 7);
    Interval {
        lo: eight.lo,
        hi: nine.hi,
    }
}

// The sine of pi * t / (2 * d), where 2 * t is at most d.
fn octant_sine(t: u128, d: u128) -> Interval
    requires positive { 0 < d }
    requires few { d ≤ 2 ^ 30 }
    requires octant { 2 * t ≤ d }
    ensures exact { result ≡ octant_sine_of t d }
    ensures size { IsWithin 50 result }
{
    let x = angle(t, d);
    series(&x, &mul(&x, &x), 2)
}

// The cosine of pi * t / (2 * d), where 2 * t is at most d.
fn octant_cosine(t: u128, d: u128) -> Interval
    requires positive { 0 < d }
    requires few { d ≤ 2 ^ 30 }
    requires octant { 2 * t ≤ d }
    ensures exact { result ≡ octant_cosine_of t d }
    ensures size { IsWithin 50 result }
{
    let x = angle(t, d);
    series(&Interval { lo: ONE, hi: ONE }, &mul(&x, &x), 1)
}

// The sine of pi * r / (2 * d), where r is at most d.
fn quarter_sine(r: u128, d: u128) -> Interval
    requires few { d ≤ 2 ^ 30 }
    requires quarter { r < d }
    ensures exact { result ≡ quarter_sine_of r d }
    ensures size { IsWithin 50 result }
{
    if 2 * r <= d {
        octant_sine(r, d)
    } else {
        octant_cosine(d - r, d)
    }
}

// The cosine of pi * r / (2 * d), where r is at most d.
fn quarter_cosine(r: u128, d: u128) -> Interval
    requires few { d ≤ 2 ^ 30 }
    requires quarter { r < d }
    ensures exact { result ≡ quarter_cosine_of r d }
    ensures size { IsWithin 50 result }
{
    if 2 * r <= d {
        octant_cosine(r, d)
    } else {
        octant_sine(d - r, d)
    }
}

// The numbers of the interval with their signs changed.
fn negated(a: &Interval) -> Interval
    requires { IsWithin 50 a.now }
    ensures exact { result ≡ negated_of a.now }
    ensures size { IsWithin 50 result }
{
    Interval {
        lo: -a.hi,
        hi: -a.lo,
    }
}

// The sine and the cosine k quarter turns on.
fn turned(k: u128, sine: Interval, cosine: Interval) -> SineCosine
    requires sine { IsWithin 50 sine }
    requires cosine { IsWithin 50 cosine }
    ensures exact { result ≡ turned_of k sine cosine }
    ensures sine { IsWithin 50 result.sine }
    ensures cosine { IsWithin 50 result.cosine }
{
    match k {
        0 => SineCosine { sine, cosine },
        1 => SineCosine {
            sine: cosine,
            cosine: negated(&sine),
        },
        2 => SineCosine {
            sine: negated(&sine),
            cosine: negated(&cosine),
        },
        _ => SineCosine {
            sine: negated(&cosine),
            cosine: sine,
        },
    }
}

// The sine and the cosine of pi * m / d.
fn turn(m: u128, d: u128) -> SineCosine
    requires positive { 0 < d }
    requires few { d ≤ 2 ^ 30 }
    requires turn { m < 2 * d }
    ensures exact { result ≡ turn_of m d }
    ensures sine { IsWithin 50 result.sine }
    ensures cosine { IsWithin 50 result.cosine }
{
    let left = 2 * m % d;
    turned(2 * m / d, quarter_sine(left, d), quarter_cosine(left, d))
}

/// Bounds of the sine and the cosine of pi * n / d, for d from 1 to 2^30 and n from -2 * d to 2 * d.
///
/// They have every value between the partial sums of eight and of nine terms of the series. Their ends are at
/// most 2^50 in size.
pub fn half_turn(n: i128, d: i128) -> SineCosine
    requires positive { pos 0 <ℤ d }
    requires few { d ≤ℤ pos (2 ^ 30) }
    requires low { neg_ℤ (pos 2 *ℤ d) ≤ℤ n }
    requires high { n ≤ℤ (pos 2 *ℤ d) }
    ensures exact { result ≡ half_turn_of n (unsigned_abs d) }
    ensures sine_size { IsWithin 50 result.sine }
    ensures cosine_size { IsWithin 50 result.cosine }
    ensures sine { (s : Fraction) → IsSine n (unsigned_abs d) s → IntervalHolds result.sine s }
    ensures cosine { (s : Fraction) → IsCosine n (unsigned_abs d) s → IntervalHolds result.cosine s }
{
    turn(n.rem_euclid(2 * d) as u128, d as u128)
}
