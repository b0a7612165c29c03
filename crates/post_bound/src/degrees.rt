// The whole degrees that a stripe of tiles meets.
ghost use Rattle.std.specs.Prelude.{◌≤◌, ◌<◌, ◌+◌, ◌*◌, ◌^◌, ◌↔◌, ℕ};

// The first degree that begins at the stripe's beginning or later. The degree before it still meets the stripe.
pub(crate) fn first_degree(z: u8, stripe: u32) -> u32
    requires level { z ≤ 14 }
    requires stripe { stripe < 2 ^ 15 }
    ensures value { (degree : ℕ) → (180 * stripe ≤ degree * 2 ^ z) ↔ (result ≤ degree) }
    ensures small { result ≤ 180 * stripe }
{
    (180 * stripe).div_ceil(1 << z)
}

// The last degree that begins at the stripe's end or earlier.
pub(crate) fn last_degree(z: u8, stripe: u32) -> u32
    requires level { z ≤ 14 }
    requires stripe { stripe < 2 ^ 15 }
    ensures value { (degree : ℕ) → (degree * 2 ^ z ≤ 180 * stripe + 180) ↔ (degree ≤ result) }
    ensures small { result ≤ 180 * stripe + 180 }
{
    (180 * stripe + 180) / (1 << z)
}
