// The value between four posts.
ghost use Rattle.std.specs.Prelude.{◌≡◌, ◌<◌, ◌≤◌, ◌*◌, ◌^◌, ◌+ℤ◌, ◌*ℤ◌, pos};
ghost use Rattle.std.specs.List.{list_any};
ghost use Rattle.terrain_base.specs.Height.{IsHeight};
ghost use Rattle.dted_cell.specs.Elevation.{IsPost};
ghost use Rattle.cell_mosaic.specs.Blend.{
  weighted,
  times,
  rounded,
  has_no_height,
  IsWithinWeight,
  counted,
  known,
  heaviest,
  weighted_sum,
  blend_of,
};

use crate::Quad;
use crate::short_blend::short_blend;
use crate::weighted::Weighted;
use terrain_base::{Post, floor_div};

/// A height as often as a weight says.
fn scaled(metres: i16, weight: u128) -> i128
    requires height { IsHeight metres }
    requires weight { weight ≤ 2 ^ 74 }
    ensures value { result ≡ metres *ℤ pos weight }
    ensures within { IsWithinWeight weight result }
    ensures small { IsWithinWeight (2 ^ 74) result }
{
    metres as i128 * weight as i128
}

/// The post's height as often as its weight says, and 0 for a void.
fn product(one: &Weighted) -> i128
    requires post { IsPost one.now.post }
    requires weight { one.now.weight ≤ 2 ^ 74 }
    ensures value { result ≡ times one.now.post one.now.weight }
    ensures within { IsWithinWeight one.now.weight result }
    ensures small { IsWithinWeight (2 ^ 74) result }
{
    match one.post {
        Post::Void => 0,
        Post::Metres(metres) => scaled(metres, one.weight),
    }
}

/// The sum of four products.
fn sum_of_four(sw: i128, se: i128, nw: i128, ne: i128) -> i128
    requires sw { IsWithinWeight (2 ^ 74) sw }
    requires se { IsWithinWeight (2 ^ 74) se }
    requires nw { IsWithinWeight (2 ^ 74) nw }
    requires ne { IsWithinWeight (2 ^ 74) ne }
    ensures value { result ≡ sw +ℤ (se +ℤ (nw +ℤ (ne +ℤ pos 0))) }
    ensures small { IsWithinWeight (2 ^ 76) result }
{
    sw + (se + (nw + ne))
}

/// A weighted sum over the unit of its weights, to the nearest whole number, a half up.
fn quotient(sum: i128, unit: u128) -> i128
    requires unit { (0 < unit) × (unit ≤ 2 ^ 74) }
    requires within { IsWithinWeight unit sum }
    ensures value { result ≡ rounded sum unit }
    ensures height { IsHeight result }
{
    floor_div(sum * 2 + unit as i128, (2 * unit) as i128)
}

/// The same as a height.
fn round(sum: i128, unit: u128) -> i16
    requires unit { (0 < unit) × (unit ≤ 2 ^ 74) }
    requires within { IsWithinWeight unit sum }
    ensures value { result ≡ rounded sum unit }
    ensures height { IsHeight result }
{
    quotient(sum, unit) as i16
}

/// Whether it is a void.
fn is_void(one: &Weighted) -> bool
    ensures { result ≡ has_no_height one.now }
{
    match one.post {
        Post::Void => true,
        Post::Metres(_) => false,
    }
}

/// Whether a void has a weight.
fn has_void(posts: &[Weighted]) -> bool
    ensures { result ≡ list_any has_no_height (counted posts.now) }
{
    posts
        .iter()
        .filter(|one| one.weight > 0)
        .any(|one| is_void(one))
}

/// The post of greatest weight that is not void, the first of these; void where all that count are void.
fn nearest(posts: &[Weighted]) -> Post
    ensures { result ≡ heaviest (known (counted posts.now)) }
{
    let mut best = Weighted {
        post: Post::Void,
        weight: 0,
    };
    for one in posts {
        if !is_void(one) && one.weight > best.weight {
            best = *one;
        }
    }
    best.post
}

/// The four posts with their weights.
fn weigh(quad: &Quad, east: u128, east_unit: u128, north: u128, north_unit: u128) -> [Weighted; 4]
    requires east { (east ≤ east_unit) × (east_unit ≤ 2 ^ 37) }
    requires north { (north ≤ north_unit) × (north_unit ≤ 2 ^ 37) }
    ensures { result ≡ weighted quad.now east east_unit north north_unit }
{
    let west = east_unit - east;
    let south = north_unit - north;
    [
        Weighted {
            post: quad.sw,
            weight: west * south,
        },
        Weighted {
            post: quad.se,
            weight: east * south,
        },
        Weighted {
            post: quad.nw,
            weight: west * north,
        },
        Weighted {
            post: quad.ne,
            weight: east * north,
        },
    ]
}

/// The value at the fractions `east / east_unit` and `north / north_unit` of the way from the south-western to the
/// other posts. Posts of weight 0 are ignored. It is the sum of the others by their bilinear weights, rounded to the
/// nearest metre, a half up; where a void is among them it is the one of greatest weight that is not void, the first
/// of these in the order south-west, south-east, north-west, north-east; and void where all are void.
#[tactic(auto, unfolding(crate::specs::Blend::blend_of))]
pub fn blend(quad: &Quad, east: u128, east_unit: u128, north: u128, north_unit: u128) -> Post
    requires sw { IsPost quad.now.sw }
    requires se { IsPost quad.now.se }
    requires nw { IsPost quad.now.nw }
    requires ne { IsPost quad.now.ne }
    requires east { (east ≤ east_unit) × (0 < east_unit) × (east_unit ≤ 2 ^ 37) }
    requires north { (north ≤ north_unit) × (0 < north_unit) × (north_unit ≤ 2 ^ 37) }
    ensures value { result ≡ blend_of quad.now east east_unit north north_unit }
    ensures height { IsPost result }
{
    // Few grid points of a tile have a void beside them, and 64 bits take much less time than 128.
    if let Some(metres) = short_blend(quad, east, east_unit, north, north_unit) {
        return Post::Metres(metres);
    }
    let posts = weigh(quad, east, east_unit, north, north_unit);
    if has_void(&posts) {
        return nearest(&posts);
    }
    let [sw, se, nw, ne] = posts;
    let sum = sum_of_four(product(&sw), product(&se), product(&nw), product(&ne));
    Post::Metres(round(sum, east_unit * north_unit))
}
