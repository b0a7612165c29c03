// Quotients and square roots of whole numbers, rounded down or up.
ghost use Rattle.std.specs.Prelude.{◌≡◌, pos, ◌<ℤ◌};
ghost use Rattle.terrain_base.specs.Division.{IsFloor, IsCeil, IsRoot, floor_of, ceil_of, root_of};

/// a / b rounded down, for b above 0.
pub fn floor_div(a: i128, b: i128) -> i128
    requires { pos 0 <ℤ b }
    ensures exact { result ≡ floor_of a b }
    ensures floor { IsFloor a b result }
{
    a.div_euclid(b)
}

/// a / b rounded up, for b above 0.
pub fn ceil_div(a: i128, b: i128) -> i128
    requires { pos 0 <ℤ b }
    ensures exact { result ≡ ceil_of a b }
    ensures ceil { IsCeil a b result }
{
    let down = a.div_euclid(b);
    if a.rem_euclid(b) > 0 { down + 1 } else { down }
}

/// The square root of n rounded down: the greatest whole number whose square is at most n.
pub fn isqrt(n: u128) -> u128
    ensures exact { result ≡ root_of n }
    ensures root { IsRoot n result }
{
    n.isqrt()
}
