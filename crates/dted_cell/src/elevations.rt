// The elevations of a data record, eight at a time: their bytes' sum, the voids among them, and the least and the
// greatest height, in one pass.
ghost use Rattle.std.specs.Prelude.{
  sum,
  ◌/◌,
  slice_index,
  ◌≡◌,
  ℕ,
  ◌+◌,
  ◌*◌,
  ◌^◌,
  ◌%◌,
  ◌<◌,
  ◌≤◌,
  ◌==◌,
  if◌then◌else◌,
  length,
  map,
  min,
  max,
  take,
  count_by,
  slice_range,
};
ghost use Rattle.std.specs.Simd.Lanes.{zip2, sum_l};
ghost use Rattle.dted_cell.specs.Words.{words_of, key, low_key, greatest_of, least_of};

use std::simd::prelude::*;

// The sums of 16 bytes from a place on, four by four.
#[inline(always)]
fn fours(bytes: &[u8], at: usize) -> u32x4
    requires { at + 16 ≤ length bytes.now }
    ensures lanes { length result ≡ 4 }
    ensures sum { sum_l result ≡ sum (slice_range bytes.now at (at + 16)) }
{
    u8x16::from_slice(&bytes[at..]).dot4(u8x16::splat(1))
}

// The eight words from a place on. Each elevation's higher byte comes first in a record, and the lanes want the lower
// one first.
#[inline(always)]
fn words_at(bytes: &[u8], at: usize) -> u16x8
    requires { at + 16 ≤ length bytes.now }
    ensures exact { result ≡ words_of (slice_range bytes.now at (at + 16)) }
    ensures lanes { length result ≡ 8 }
{
    let lanes = u8x16::from_slice(&bytes[at..]);
    u16x8::from_le_bytes(lanes.swizzle([1, 0, 3, 2, 5, 4, 7, 6, 9, 8, 11, 10, 13, 12, 15, 14]))
}

// How many of eight words are the null value.
#[inline(always)]
fn voids_among(words: u16x8) -> u32
    ensures exact { result ≡ count_by (λ w. w == 65535) words }
    ensures few { result ≤ 8 }
{
    let voids = words.simd_eq(u16x8::splat(0xFFFF));
    voids.to_bitmask().count_ones()
}

// Numbers in the order of the heights: 32768 more than the height that sign and magnitude say. Minus zero and zero get
// one key.
#[inline(always)]
fn keys_of(words: u16x8) -> u16x8
    ensures { result ≡ map key words }
{
    words
        .simd_lt(u16x8::splat(0x8000))
        .select(words + u16x8::splat(0x8000), u16x8::splat(0) - words)
}

// The same, where a void is above all heights, so that it is never the least.
#[inline(always)]
fn low_keys_of(words: u16x8) -> u16x8
    ensures { result ≡ map low_key words }
{
    words
        .simd_eq(u16x8::splat(0xFFFF))
        .select(u16x8::splat(0xFFFF), keys_of(words))
}

// The greater of each two lanes.
#[inline(always)]
fn greater(a: u16x8, b: u16x8) -> u16x8
    ensures { result ≡ zip2 max a b }
{
    a.simd_max(b)
}

// The lesser of each two lanes.
#[inline(always)]
fn lesser(a: u16x8, b: u16x8) -> u16x8
    ensures { result ≡ zip2 min a b }
{
    a.simd_min(b)
}

// What a pass over elevations finds.
#[derive(Clone, Copy)]
pub(crate) struct Found {
    // The sum of the bytes.
    pub(crate) sum: u32,
    pub(crate) voids: u32,
    // The least key, where a void is above all heights.
    pub(crate) least: u16,
    // The greatest key.
    pub(crate) greatest: u16,
}

// The least lane.
#[tactic(auto, using(crate::proofs::Passes::least_more))]
fn least_lane(lanes: u16x8) -> u16
    ensures { result ≡ least_of lanes }
{
    let mut least: u16 = 0xFFFF;
    for lane in lanes.to_array() {
        least = least.min(lane);
    }
    least
}

// The greatest lane.
#[tactic(auto, using(crate::proofs::Passes::greatest_more))]
fn greatest_lane(lanes: u16x8) -> u16
    ensures { result ≡ greatest_of lanes }
{
    let mut greatest: u16 = 0;
    for lane in lanes.to_array() {
        greatest = greatest.max(lane);
    }
    greatest
}

// A pass over whole blocks of eight elevations. The least and the greatest are kept lane by lane, and folded once at
// the end.
fn blocks_of(bytes: &[u8], blocks: usize) -> Found
    requires short { length bytes.now < 2 ^ 20 }
    requires inside { 16 * blocks ≤ length bytes.now }
    ensures sum { result.sum ≡ sum (take (16 * blocks) bytes.now) }
    ensures voids { result.voids ≡ count_by (λ w. w == 65535) (words_of (take (16 * blocks) bytes.now)) }
    ensures few { result.voids ≤ 8 * blocks }
    ensures least { result.least ≡ least_of (map low_key (words_of (take (16 * blocks) bytes.now))) }
    ensures greatest { result.greatest ≡ greatest_of (map key (words_of (take (16 * blocks) bytes.now))) }
{
    let mut sums = u32x4::splat(0);
    let mut voids: u32 = 0;
    let mut least = u16x8::splat(0xFFFF);
    let mut greatest = u16x8::splat(0);
    for block in 0..blocks {
        sums = sums.strict_add(fours(bytes, 16 * block));
        let words = words_at(bytes, 16 * block);
        voids += voids_among(words);
        least = lesser(least, low_keys_of(words));
        greatest = greater(greatest, keys_of(words));
    }
    Found {
        sum: sums.strict_reduce_sum(),
        voids,
        least: least_lane(least),
        greatest: greatest_lane(greatest),
    }
}

// The key of a word.
fn key_of(word: u16) -> u16
    ensures { result ≡ key word }
{
    if word < 0x8000 {
        word + 0x8000
    } else {
        0xFFFF - word + 1
    }
}

// With one elevation more.
fn with_word(found: Found, high: u8, low: u8) -> Found
    requires sum { found.sum < 2 ^ 31 }
    requires voids { found.voids < 2 ^ 31 }
    ensures sum { result.sum ≡ found.sum + high + low }
    ensures voids { result.voids ≡ found.voids + (if 256 * high + low == 65535 then 1 else 0) }
    ensures least { result.least ≡ min found.least (low_key (256 * high + low)) }
    ensures greatest { result.greatest ≡ max found.greatest (key (256 * high + low)) }
{
    let word = u16::from(high) * 256 + u16::from(low);
    let key = key_of(word);
    let is_void = word == 0xFFFF;
    Found {
        sum: found.sum + u32::from(high) + u32::from(low),
        voids: found.voids + u32::from(is_void),
        least: found.least.min(if is_void { 0xFFFF } else { key }),
        greatest: found.greatest.max(key),
    }
}

// What elevations hold, in one pass: blocks of eight, and then what is left, one by one. The rows of each level
// are one more than a multiple of eight, so that one is left.
pub(crate) fn found_in(bytes: &[u8]) -> Found
    requires short { length bytes.now < 2 ^ 20 }
    requires even { length bytes.now % 2 ≡ 0 }
    ensures sum { result.sum ≡ sum bytes.now }
    ensures voids { result.voids ≡ count_by (λ w. w == 65535) (words_of bytes.now) }
    ensures least { result.least ≡ least_of (map low_key (words_of bytes.now)) }
    ensures greatest { result.greatest ≡ greatest_of (map key (words_of bytes.now)) }
{
    let blocks = bytes.len() / 16;
    let mut found = blocks_of(bytes, blocks);
    for row in 8 * blocks..bytes.len() / 2 {
        found = with_word(found, bytes[2 * row], bytes[2 * row + 1]);
    }
    found
}
