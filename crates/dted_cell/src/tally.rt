// The tally of a data record's elevations, in the words of the cell's definitions.
ghost use Rattle.std.specs.Prelude.{
  ◌≡◌,
  ◌↔◌,
  ℕ,
  ◌<◌,
  ◌*◌,
  length,
  map,
  fold,
  sum,
  count_by,
  IsSome,
  IfSome,
  None,
};
ghost use Rattle.std.specs.List.{range_with_len};
ghost use Rattle.dted_cell.specs.Field.{word_at};
ghost use Rattle.dted_cell.specs.Elevation.{IsElevation};
ghost use Rattle.dted_cell.specs.Cell.{is_void_post, post_of_row, widened};
ghost use Rattle.dted_cell.specs.Words.{extremes_from};

use crate::counts::Counts;
use crate::elevations::found_in;
use terrain_base::Extremes;

// The key of 16000 metres below 0.
const LOWEST_KEY: u16 = 16768;

// The key of 16000 metres above 0.
const HIGHEST_KEY: u16 = 48768;

// What elevations hold.
#[derive(Clone, Copy)]
pub(crate) struct Tally {
    // The sum of their bytes.
    pub(crate) sum: u32,
    pub(crate) counts: Counts,
}

// The heights that keys stand for. There are none where the least key is that of a void.
fn extremes_of(least: u16, greatest: u16) -> Option<Extremes>
    ensures { result ≡ extremes_from least greatest }
{
    if least == 0xFFFF {
        None
    } else {
        Some(Extremes {
            least: (i32::from(least) - 0x8000) as i16,
            greatest: (i32::from(greatest) - 0x8000) as i16,
        })
    }
}

// The tally of a column's elevations, where each is a void or at most 16000 metres above or below 0.
pub(crate) fn tally_of(elevations: &[u8], rows: u16) -> Option<Tally>
    requires { length elevations.now ≡ 2 * rows }
    ensures range { IsSome result ↔
        ((row : ℕ) → row < rows → IsElevation (word_at elevations.now (2 * row))) }
    ensures sum { IfSome result (λ t. t.sum ≡ sum elevations.now) }
    ensures voids { IfSome result (λ t.
        t.counts.voids ≡ count_by is_void_post (map (post_of_row elevations.now) (range_with_len 0 rows))) }
    ensures extremes { IfSome result (λ t.
        t.counts.extremes ≡ fold widened None (map (post_of_row elevations.now) (range_with_len 0 rows))) }
{
    let found = found_in(elevations);
    if found.greatest <= HIGHEST_KEY && LOWEST_KEY <= found.least {
        Some(Tally {
            sum: found.sum,
            counts: Counts {
                voids: found.voids,
                extremes: extremes_of(found.least, found.greatest),
            },
        })
    } else {
        None
    }
}
