// A mixing of 64 bits.
ghost use Rattle.std.specs.Prelude.{◌≡◌};
ghost use Rattle.dted_write.specs.Mix.{mixed};

/// Mixes the bits of a number: the output function of the generator SplitMix64, modulo 2^64.
#[tactic(auto, unfolding(crate::specs::Mix::mixed))]
pub fn mix(n: u64) -> u64
    ensures { result ≡ mixed n }
{
    let a = n.wrapping_add(0x9E37_79B9_7F4A_7C15);
    let b = (a ^ (a >> 30)).wrapping_mul(0xBF58_476D_1CE4_E5B9);
    let c = (b ^ (b >> 27)).wrapping_mul(0x94D0_49BB_1331_11EB);
    c ^ (c >> 31)
}
