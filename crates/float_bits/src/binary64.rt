//! Patterns of binary64.
ghost use Rattle.std.specs.Prelude.{◌≡◌, ℕ, ℤ, ◌^◌, ◌<◌, ◌≤◌, IfSome, IfNone, unsigned_abs};
ghost use Rattle.float_bits.specs.Binary64.{IsBits64, IsNormal64, bits64_of, sign64};

use crate::significand::{places_to_52, whole_number};

/// The pattern of `size / 2^shift` under a sign bit.
fn normal64(sign: u64, size: u64, shift: u8) -> u64
    requires bit { sign < 2 }
    requires above { 0 < size }
    requires below { size < 2 ^ 53 }
    requires shift { shift ≤ 63 }
    ensures { IsNormal64 sign size shift result }
{
    let places = places_to_52(size);
    let fraction = (size << places) - (1 << 52);
    let exponent = 1075 - places as u64 - shift as u64;
    (sign << 63) + (exponent << 52) + fraction
}

/// The binary64 pattern of `n / 2^shift`: exact, for `n` below 2^53 in size and a shift of at most 63.
///
/// The pattern of 0 is 0, so no number has the pattern of negative zero (IEEE 754-2019, 3.4).
pub fn bits64(n: i64, shift: u8) -> u64
    requires size { unsigned_abs n < 2 ^ 53 }
    requires shift { shift ≤ 63 }
    ensures pattern { IsBits64 n shift result }
    ensures exact { result ≡ bits64_of n shift }
{
    if n == 0 {
        0
    } else if n > 0 {
        normal64(0, n.unsigned_abs(), shift)
    } else {
        normal64(1, n.unsigned_abs(), shift)
    }
}

/// The size, times 2^shift, of the number above or below 0 that a pattern stands for.
fn size64(bits: u64, shift: u8) -> Option<u64>
    requires { shift ≤ 63 }
    ensures some { IfSome result (λ n. (0 < n) × (n < 2 ^ 53) × IsNormal64 (sign64 bits) n shift bits) }
    ensures only { (n : ℕ) → n < 2 ^ 53 → IsNormal64 (sign64 bits) n shift bits → result ≡ Some n }
{
    let significand = (1 << 52) + bits % (1 << 52);
    let exponent = (bits >> 52) % (1 << 11);
    whole_number(significand, exponent + shift as u64, 1075)
}

/// The number `n` below 2^53 in size for which `bits` is the binary64 pattern of `n / 2^shift`, for a shift of at
/// most 63.
///
/// None exactly where there is no such number: for negative zero, for infinities and NaNs, for subnormal
/// numbers, and for numbers that are not of that form.
pub fn lattice64(bits: u64, shift: u8) -> Option<i64>
    requires { shift ≤ 63 }
    ensures some { IfSome result (λ n. (unsigned_abs n < 2 ^ 53) × IsBits64 n shift bits) }
    ensures none { IfNone result ((n : ℤ) → unsigned_abs n < 2 ^ 53 → ¬ IsBits64 n shift bits) }
    ensures inverse { (n : ℤ) → unsigned_abs n < 2 ^ 53 → IsBits64 n shift bits → result ≡ Some n }
{
    if bits == 0 {
        return Some(0);
    }
    let size = size64(bits, shift)? as i64;
    if bits >> 63 == 0 {
        Some(size)
    } else {
        Some(-size)
    }
}

#[cfg(test)]
mod tests {
    use super::*;

    #[test]
    fn numbers_and_patterns_stand_for_each_other(rt: HostRuntime) {
        let table = [
            (6378137, 0, 0x415854A640000000),
            (0, 8, 0),
            (-1, 8, 0xBF70000000000000),
            (-6356752, 8, 0xC0D83FC400000000),
            (255, 8, 0x3FEFE00000000000),
            (256, 8, 0x3FF0000000000000),
            (257, 8, 0x3FF0100000000000),
            (4503599627370495, 0, 0x432FFFFFFFFFFFFE),
            (4503599627370496, 0, 0x4330000000000000),
            (4503599627370497, 8, 0x42B0000000000001),
            (1, 63, 0x3C00000000000000),
            (9007199254740991, 63, 0x3F4FFFFFFFFFFFFF),
            (9007199254740991, 0, 0x433FFFFFFFFFFFFF),
            (-9007199254740991, 0, 0xC33FFFFFFFFFFFFF),
        ];
        for (n, shift, pattern) in table {
            assert!(rt; n > -(1_i64 << 53) && n < 1 << 53 && shift <= 63);
            assert_eq!(rt;
                bits64(n, shift),
                pattern,
                "the pattern of {n} by shift {shift}"
            );
            assert_eq!(rt;
                lattice64(pattern, shift),
                Some(n),
                "the number of {pattern} by shift {shift}"
            );
        }
    }

    #[test]
    fn other_patterns_are_refused(rt: HostRuntime) {
        let table = [
            (0x8000000000000000, 0),
            (0x0000000000000001, 0),
            (0x0010000000000000, 63),
            (0x3BF0000000000000, 63),
            (0x3F70000000000000, 7),
            (0x3FE0000000000000, 0),
            (0x4340000000000000, 0),
            (0xC340000000000000, 0),
            (0x7FF0000000000000, 0),
            (0xFFF0000000000000, 0),
            (0x7FF8000000000000, 0),
        ];
        for (pattern, shift) in table {
            assert!(rt; shift <= 63);
            assert_eq!(rt;
                lattice64(pattern, shift),
                None,
                "the number of {pattern} by shift {shift}"
            );
        }
    }
}
