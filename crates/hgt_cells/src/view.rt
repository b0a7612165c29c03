// An HGT file, read where its bytes lie.
ghost use Rattle.std.specs.Prelude.{◌≡◌, ◌+◌, ◌*◌, ◌<◌, ◌≤◌, length, IfOk, IfSome, IsOk, ◌↔◌, option_map};
ghost use Rattle.std.specs.Result.{result_err};
ghost use Rattle.common_laws.specs.First.{first_of};
ghost use Rattle.terrain_base.specs.Level.{zone_factor_of};
ghost use Rattle.hgt_cells.specs.File.{IsHgt, has_lines, level_in, lines_in, sample_in};
ghost use Rattle.hgt_cells.specs.Refusal.{refused_at, number_conditions, hgt_refusal_of};
ghost use Rattle.dted_write.specs.Post.{IsPost};
ghost use Rattle.hgt_cells.specs.Sample.{post_of};
ghost use Rattle.hgt_cells.specs.Cell.{hgt_post};

use crate::HgtRefusal;
use crate::sample::{is_no_sample, number, post};
use dted_write::PostTable;
use terrain_base::{CellLevel, Post, Square, lat_step, lon_step, rows};

/// An HGT file and the square that it covers, read where its bytes lie.
#[derive(Clone, Copy)]
pub struct HgtView<'a> {
    pub(crate) bytes: &'a [u8],
    pub(crate) square: Square,
    pub ghost file: { IsHgt bytes.now },
}

// The level whose rows are the lines of a file of this length.
#[tactic(auto, unfolding(crate::specs::File::level_in))]
fn level(bytes: &[u8]) -> CellLevel
    ensures { result ≡ level_in bytes.now }
{
    if bytes.len() == 2 * (3601 * 3601) {
        CellLevel::Two
    } else {
        CellLevel::One
    }
}

// Whether a file has the length of 1201 lines or of 3601.
fn has_lines(bytes: &[u8]) -> bool
    ensures { result ≡ has_lines bytes.now }
{
    bytes.len() == 2 * (1201 * 1201) || bytes.len() == 2 * (3601 * 3601)
}

// How many lines a file has, and samples on each.
fn lines(bytes: &[u8]) -> u16
    ensures value { result ≡ lines_in bytes.now }
    ensures some { 0 < result }
    ensures most { result ≤ 3601 }
{
    rows(level(bytes))
}

// The first number of a file that is no sample.
#[tactic(auto, unfolding(crate::specs::Refusal::number_conditions), using(common_laws::proofs::First::map_next, common_laws::proofs::First::map_found))]
fn first_bad(bytes: &[u8]) -> Option<usize>
    requires { length bytes.now ≡ 2 * (lines_in bytes.now * lines_in bytes.now) }
    ensures value { option_map (refused_at bytes.now) result ≡ first_of (number_conditions bytes.now) }
    ensures within { IfSome result (λ k. k < lines_in bytes.now * lines_in bytes.now) }
{
    let lines = lines(bytes) as usize;
    for k in 0..lines * lines {
        if is_no_sample(number(bytes, 2 * k)) {
            return Some(k);
        }
    }
    None
}

// The refusal of a number of a file.
fn refused_at(bytes: &[u8], k: usize) -> HgtRefusal
    requires long { length bytes.now ≡ 2 * (lines_in bytes.now * lines_in bytes.now) }
    requires within { k < lines_in bytes.now * lines_in bytes.now }
    ensures { result ≡ refused_at bytes.now k }
{
    let lines = lines(bytes) as usize;
    HgtRefusal::HeightOutOfRange {
        line: (k / lines) as u16,
        place: (k % lines) as u16,
        value: number(bytes, 2 * k),
    }
}

// The refusal of a file.
#[tactic(auto, unfolding(crate::specs::Refusal::hgt_refusal_of, crate::specs::Refusal::conditions_of), using(crate::proofs::Files::file_length))]
fn refusal(bytes: &[u8]) -> Option<HgtRefusal>
    ensures { result ≡ hgt_refusal_of bytes.now }
{
    if !has_lines(bytes) {
        return Some(HgtRefusal::BadLength {
            have: bytes.len() as u64,
        });
    }
    match first_bad(bytes) {
        Some(k) => Some(refused_at(bytes, k)),
        None => None,
    }
}

impl<'a> HgtView<'a> {
    /// Reads a file of 1201 or 3601 lines that covers this square. Nothing is copied. The refusal is the first whose
    /// condition holds: the length, then sample by sample, line by line from the north.
    #[tactic(auto, using(crate::proofs::Refusals::accepted, crate::proofs::Refusals::none_refused))]
    pub fn read(bytes: &'a [u8], square: Square) -> Result<HgtView<'a>, HgtRefusal>
        ensures ok { IsOk result ↔ IsHgt bytes.now }
        ensures view { IfOk result (λ view. (view.bytes.now ≡ bytes.now) × (view.square ≡ square)) }
        ensures refusal { result_err result ≡ hgt_refusal_of bytes.now }
    {
        match refusal(bytes) {
            Some(refusal) => Err(refusal),
            None => Ok(HgtView { bytes, square }),
        }
    }

    // The sample of a line, from the north, and a place, from the west.
    #[tactic(auto, unfolding(crate::specs::File::sample_in), using(crate::proofs::Files::sample_within))]
    fn sample(&self, line: usize, place: usize) -> i16
        requires line { line < lines_in self.now.bytes.now }
        requires place { place < lines_in self.now.bytes.now }
        ensures { result ≡ sample_in self.now.bytes.now line place }
    {
        number(self.bytes, 2 * (lines(self.bytes) as usize * line + place))
    }

    // The post that this sample stands for.
    fn post_at(&self, line: usize, place: usize) -> Post
        requires line { line < lines_in self.now.bytes.now }
        requires place { place < lines_in self.now.bytes.now }
        ensures value { result ≡ post_of (sample_in self.now.bytes.now line place) }
        ensures height { IsPost result }
    {
        post(self.sample(line, place))
    }
}

impl<'a> PostTable for HgtView<'a> {
    ghost square_of = { λ view. view.square };

    ghost level_of = { λ view. level_in view.bytes.now };

    ghost posts_of = { λ view. hgt_post view.square view.bytes.now };

    fn square(&self) -> Square {
        self.square
    }

    fn level(&self) -> CellLevel {
        level(self.bytes)
    }

    fn post(&self, col: u16, row: u16) -> Post {
        let level = level(self.bytes);
        let factor = lon_step(self.square, level) / lat_step(level);
        let line = rows(level) - 1 - row;
        self.post_at(line as usize, (col * factor) as usize)
    }
}
