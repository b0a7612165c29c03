// A number above 0 as a significand times a power of two, for both formats.

ghost use Rattle.std.specs.Prelude.{◌≡◌, ℕ, ◌+◌, ◌*◌, ◌^◌, ◌<◌, ◌≤◌, IfSome, OnSome};

/// How many places the highest bit of `n` lies below bit 52.
pub(crate) fn places_to_52(n: u64) -> u32
    requires above { 0 < n }
    requires below { n < 2 ^ 53 }
    ensures few { result ≤ 52 }
    ensures low { 2 ^ 52 ≤ n * 2 ^ result }
    ensures high { n * 2 ^ result < 2 ^ 53 }
{
    n.leading_zeros() - 11
}

/// The whole number `n` with `significand * 2^exponent = n * 2^scale` that is below twice the significand, if there
/// is one.
pub(crate) fn whole_number(significand: u64, exponent: u64, scale: u64) -> Option<u64>
    requires above { 0 < significand }
    requires below { significand < 2 ^ 53 }
    ensures some { IfSome result
        (λ n. (0 < n) × (n ≤ significand) × (significand * 2 ^ exponent ≡ n * 2 ^ scale)) }
    ensures near { OnSome result ((exponent ≤ scale) × (scale ≤ exponent + 52)) }
    ensures only { (n : ℕ) → n < 2 * significand → significand * 2 ^ exponent ≡ n * 2 ^ scale → result ≡ Some n }
{
    if exponent > scale {
        return None;
    }
    let places = scale - exponent;
    if places > 52 {
        return None;
    }
    let n = significand >> places;
    if n << places == significand {
        Some(n)
    } else {
        None
    }
}
