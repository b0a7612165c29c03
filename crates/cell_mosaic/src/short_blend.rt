// The value between four heights whose weights 64 bits hold.
ghost use Rattle.std.specs.Prelude.{
  ◌≡◌,
  ◌<◌,
  ◌≤◌,
  ◌*◌,
  ◌%◌,
  ◌^◌,
  ◌+ℤ◌,
  ◌*ℤ◌,
  pos,
  IfSome,
  true,
};
ghost use Rattle.terrain_base.specs.Height.{IsHeight};
ghost use Rattle.terrain_base.specs.declared.post.Post.TheVariants.{Metres};
ghost use Rattle.dted_cell.specs.Elevation.{IsPost};
ghost use Rattle.cell_mosaic.specs.Blend.{IsWithinWeight, rounded, heights_round, blend_of};

use crate::Quad;
use terrain_base::Post;

// The longest unit. A product of two is at most 2^48, and twice a height as often as that is below 2^63.
const LONGEST: u64 = 0x100_0000;

// The longest unit of which a 32nd is short. The grid points of a tile of level z lie at multiples of 180 degrees over
// the unit, which is 32767 * 2^z. How far one lies beyond a post is a multiple of 180 times the steps of a degree, less
// whole units: so a multiple of 32 in most cells from level 5 on, as the unit is, which up to level 14 is below 2^29.
const LONGEST_IN_PARTS: u128 = 0x2000_0000;

/// A height as often as a weight says.
fn scaled(metres: i16, weight: u64) -> i64
    requires height { IsHeight metres }
    requires weight { weight ≤ 2 ^ 48 }
    ensures value { result ≡ metres *ℤ pos weight }
    ensures within { IsWithinWeight weight result }
    ensures small { IsWithinWeight (2 ^ 48) result }
{
    metres as i64 * weight as i64
}

/// The sum of four products. Each weight is a part of the product of the units, so no sum on the way is beyond it.
fn sum_of_four(sw: i64, se: i64, nw: i64, ne: i64) -> i64
    requires two { IsWithinWeight (2 ^ 48) (nw +ℤ ne) }
    requires three { IsWithinWeight (2 ^ 48) (se +ℤ (nw +ℤ ne)) }
    requires four { IsWithinWeight (2 ^ 48) (sw +ℤ (se +ℤ (nw +ℤ ne))) }
    ensures value { result ≡ sw +ℤ (se +ℤ (nw +ℤ (ne +ℤ pos 0))) }
    ensures small { IsWithinWeight (2 ^ 48) result }
{
    sw + (se + (nw + ne))
}

/// A weighted sum over the unit of its weights, to the nearest whole number, a half up.
fn quotient(sum: i64, unit: u64) -> i64
    requires unit { (0 < unit) × (unit ≤ 2 ^ 48) }
    requires within { IsWithinWeight unit sum }
    ensures value { result ≡ rounded sum unit }
    ensures height { IsHeight result }
{
    (sum * 2 + unit as i64).div_euclid((2 * unit) as i64)
}

/// The sum of four heights by their bilinear weights, over the product of the units, to the nearest metre, a half up.
fn average(
    sw: i16,
    se: i16,
    nw: i16,
    ne: i16,
    east: u64,
    east_unit: u64,
    north: u64,
    north_unit: u64,
) -> i16
    requires sw { IsHeight sw }
    requires se { IsHeight se }
    requires nw { IsHeight nw }
    requires ne { IsHeight ne }
    requires east { (east ≤ east_unit) × (0 < east_unit) × (east_unit ≤ 2 ^ 24) }
    requires north { (north ≤ north_unit) × (0 < north_unit) × (north_unit ≤ 2 ^ 24) }
    ensures value { Metres result ≡ blend_of (heights_round sw se nw ne) east east_unit north north_unit }
    ensures height { IsHeight result }
{
    let west = east_unit - east;
    let south = north_unit - north;
    let sum = sum_of_four(
        scaled(sw, west * south),
        scaled(se, east * south),
        scaled(nw, west * north),
        scaled(ne, east * north),
    );
    quotient(sum, east_unit * north_unit) as i16
}

/// Whether all four are multiples of 32.
fn are_multiples(east: u64, east_unit: u64, north: u64, north_unit: u64) -> bool
    ensures east { result ≡ true → (east % 32 ≡ 0) × (east_unit % 32 ≡ 0) }
    ensures north { result ≡ true → (north % 32 ≡ 0) × (north_unit % 32 ≡ 0) }
{
    east % 32 == 0 && east_unit % 32 == 0 && north % 32 == 0 && north_unit % 32 == 0
}

/// The value between four heights, where the units are short enough or can be made so.
fn between(
    sw: i16,
    se: i16,
    nw: i16,
    ne: i16,
    east: u64,
    east_unit: u64,
    north: u64,
    north_unit: u64,
) -> Option<i16>
    requires sw { IsHeight sw }
    requires se { IsHeight se }
    requires nw { IsHeight nw }
    requires ne { IsHeight ne }
    requires east { (east ≤ east_unit) × (0 < east_unit) × (east_unit ≤ 2 ^ 29) }
    requires north { (north ≤ north_unit) × (0 < north_unit) × (north_unit ≤ 2 ^ 29) }
    ensures value { IfSome result
        (λ metres. Metres metres ≡ blend_of (heights_round sw se nw ne) east east_unit north north_unit) }
    ensures height { IfSome result IsHeight }
{
    if east_unit <= LONGEST && north_unit <= LONGEST {
        return Some(average(sw, se, nw, ne, east, east_unit, north, north_unit));
    }
    if !are_multiples(east, east_unit, north, north_unit) {
        return None;
    }
    Some(average(
        sw,
        se,
        nw,
        ne,
        east / 32,
        east_unit / 32,
        north / 32,
        north_unit / 32,
    ))
}

/// The value between four posts as `blend` has it, where none is void and the units are short enough or can be
/// made so.
pub(crate) fn short_blend(
    quad: &Quad,
    east: u128,
    east_unit: u128,
    north: u128,
    north_unit: u128,
) -> Option<i16>
    requires sw { IsPost quad.now.sw }
    requires se { IsPost quad.now.se }
    requires nw { IsPost quad.now.nw }
    requires ne { IsPost quad.now.ne }
    requires east { (east ≤ east_unit) × (0 < east_unit) }
    requires north { (north ≤ north_unit) × (0 < north_unit) }
    ensures value { IfSome result (λ metres. Metres metres ≡ blend_of quad.now east east_unit north north_unit) }
    ensures height { IfSome result IsHeight }
{
    if east_unit > LONGEST_IN_PARTS || north_unit > LONGEST_IN_PARTS {
        return None;
    }
    match (quad.sw, quad.se, quad.nw, quad.ne) {
        (Post::Metres(sw), Post::Metres(se), Post::Metres(nw), Post::Metres(ne)) => between(
            sw,
            se,
            nw,
            ne,
            east as u64,
            east_unit as u64,
            north as u64,
            north_unit as u64,
        ),
        _ => None,
    }
}
