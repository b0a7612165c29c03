// A whole cell.
ghost use Rattle.std.specs.Prelude.{◌≡◌, IfOk};
ghost use Rattle.dted_write.specs.Cell.{cell_text};

use crate::PostTable;
use crate::header::header;
use crate::record::record;
use std::alloc::Global;
use terrain_base::{NoMemory, columns, rows};

/// Writes the cell of these posts: the header, with no label before it, and a record for each meridian.
/// Bytes of the header that no field names are blank. Beside the text, memory is taken for one record.
#[tactic(auto, unfolding(crate::specs::Cell::cell_text), using(crate::proofs::Records::flat_next))]
pub fn write_cell<P: PostTable>(alloc: Global, posts: &P) -> Result<Vec<u8>, NoMemory>
    ensures { IfOk result (λ text. text.items
        ≡ cell_text (P.square_of posts.now) (P.level_of posts.now) (P.posts_of posts.now)) }
{
    let (square, level) = (posts.square(), posts.level());
    let mut text = header(alloc, square, level)?;
    // All records at once, so that the text never moves.
    text.reserve_exact(columns(square, level) as usize * (12 + 2 * rows(level) as usize))?;
    for col in 0..columns(square, level) {
        text.extend_from_slice(&record(alloc, posts, col)?)?;
    }
    Ok(text)
}
