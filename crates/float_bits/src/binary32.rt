//! Patterns of binary32.
ghost use Rattle.std.specs.Prelude.{◌≡◌, ℕ, ℤ, ◌^◌, ◌<◌, IfSome, IfNone, unsigned_abs};
ghost use Rattle.float_bits.specs.Binary32.{IsBits32, IsNormal32, bits32_of, sign32};

use crate::significand::{places_to_52, whole_number};

/// The pattern of `size` under a sign bit.
fn normal32(sign: u32, size: u32) -> u32
    requires bit { sign < 2 }
    requires above { 0 < size }
    requires below { size < 2 ^ 24 }
    ensures { IsNormal32 sign size result }
{
    let places = places_to_52(size as u64) - 29;
    let fraction = (size << places) - (1 << 23);
    let exponent = 150 - places;
    (sign << 31) + (exponent << 23) + fraction
}

/// The binary32 pattern of `n`: exact, for `n` below 2^24 in size.
///
/// The pattern of 0 is 0, so no number has the pattern of negative zero (IEEE 754-2019, 3.4).
pub fn bits32(n: i32) -> u32
    requires { unsigned_abs n < 2 ^ 24 }
    ensures pattern { IsBits32 n result }
    ensures exact { result ≡ bits32_of n }
{
    if n == 0 {
        0
    } else if n > 0 {
        normal32(0, n.unsigned_abs())
    } else {
        normal32(1, n.unsigned_abs())
    }
}

/// The size of the whole number above or below 0 that a pattern stands for.
fn size32(bits: u32) -> Option<u64>
    ensures some { IfSome result (λ n. (0 < n) × (n < 2 ^ 24) × IsNormal32 (sign32 bits) n bits) }
    ensures only { (n : ℕ) → n < 2 ^ 24 → IsNormal32 (sign32 bits) n bits → result ≡ Some n }
{
    let significand = (1 << 23) + bits % (1 << 23);
    let exponent = (bits >> 23) % (1 << 8);
    whole_number(significand as u64, exponent as u64, 150)
}

/// The whole number below 2^24 in size whose binary32 pattern is `bits`.
///
/// None exactly where there is no such number: for negative zero, for infinities and NaNs, for subnormal
/// numbers, for fractions, and from 2^24 on.
pub fn lattice32(bits: u32) -> Option<i32>
    ensures some { IfSome result (λ n. (unsigned_abs n < 2 ^ 24) × IsBits32 n bits) }
    ensures none { IfNone result ((n : ℤ) → unsigned_abs n < 2 ^ 24 → ¬ IsBits32 n bits) }
    ensures inverse { (n : ℤ) → unsigned_abs n < 2 ^ 24 → IsBits32 n bits → result ≡ Some n }
{
    if bits == 0 {
        return Some(0);
    }
    let size = size32(bits)? as i32;
    if bits >> 31 == 0 {
        Some(size)
    } else {
        Some(-size)
    }
}

#[cfg(test)]
mod tests {
    use super::*;

    #[test]
    fn numbers_and_patterns_stand_for_each_other(rt: HostRuntime) {
        let table = [
            (0, 0),
            (1, 0x3F800000),
            (-1, 0xBF800000),
            (3, 0x40400000),
            (255, 0x437F0000),
            (256, 0x43800000),
            (257, 0x43808000),
            (-32768, 0xC7000000),
            (8388607, 0x4AFFFFFE),
            (8388608, 0x4B000000),
            (8388609, 0x4B000001),
            (16777215, 0x4B7FFFFF),
            (-16777215, 0xCB7FFFFF),
        ];
        for (n, pattern) in table {
            assert!(rt; n > -(1_i32 << 24) && n < 1 << 24);
            assert_eq!(rt; bits32(n), pattern, "the pattern of {n}");
            assert_eq!(rt; lattice32(pattern), Some(n), "the number of {pattern}");
        }
    }

    #[test]
    fn other_patterns_are_refused(rt: HostRuntime) {
        let table = [
            0x80000000, 0x00000001, 0x3F000000, 0x3FC00000, 0x4B800000, 0xCB800000, 0x7F800000,
            0xFF800000, 0x7FC00000,
        ];
        for pattern in table {
            assert_eq!(rt; lattice32(pattern), None, "the number of {pattern}");
        }
    }
}
