// The data records of a cell that is to be written.
ghost use Rattle.std.specs.Prelude.{◌≡◌, ◌<◌, ◌≤◌, ◌^◌, length, sum, IfOk};
ghost use Rattle.terrain_base.specs.Level.{rows_of, columns_of};
ghost use Rattle.terrain_base.specs.Height.{IsHeight};
ghost use Rattle.dted_write.specs.Post.{IsPost};
ghost use Rattle.dted_write.specs.Record.{word_of, counted_posts};
ghost use Rattle.dted_write.specs.Cell.{column_of, record_from};

use crate::PostTable;
use std::alloc::Global;
use terrain_base::{NoMemory, Post, rows};

/// The word of a height: a sign bit and 15 bits of whole metres.
fn signed_word(metres: i16) -> u16
    requires { IsHeight metres }
    ensures { result ≡ word_of (Post.Metres metres) }
{
    if metres < 0 {
        0x8000 + metres.unsigned_abs()
    } else {
        metres.unsigned_abs()
    }
}

/// The word of an elevation.
fn word(post: Post) -> u16
    requires { IsPost post }
    ensures { result ≡ word_of post }
{
    match post {
        Post::Void => 0xFFFF,
        Post::Metres(metres) => signed_word(metres),
    }
}

/// A record without its checksum.
#[tactic(auto, unfolding(crate::specs::Record::counted_posts), using(crate::proofs::Records::elevations_next))]
fn counted<P: PostTable>(alloc: Global, posts: &P, col: u16) -> Result<Vec<u8>, NoMemory>
    requires { col < columns_of (P.square_of posts.now) (P.level_of posts.now) }
    ensures { IfOk result (λ r. r.items
        ≡ counted_posts col (column_of (P.posts_of posts.now) (rows_of (P.level_of posts.now)) col)) }
{
    let [high, low] = col.to_be_bytes();
    let mut record = vec![in alloc; 0xAA, 0, high, low, high, low, 0, 0]?;
    for row in 0..rows(posts.level()) {
        record.extend_from_slice(&word(posts.post(col, row)).to_be_bytes())?;
    }
    Ok(record)
}

/// The sum of bytes.
fn summed(bytes: &[u8]) -> u32
    requires { length bytes.now < 2 ^ 20 }
    ensures { result ≡ sum bytes.now }
{
    bytes.iter().map(|byte| u32::from(*byte)).sum()
}

/// The record of a column.
#[tactic(auto, unfolding(crate::specs::Record::record_text), using(crate::proofs::Records::record_small))]
pub(crate) fn record<P: PostTable>(alloc: Global, posts: &P, col: u16) -> Result<Vec<u8>, NoMemory>
    requires { col < columns_of (P.square_of posts.now) (P.level_of posts.now) }
    ensures { IfOk result (λ r. r.items ≡ record_from (P.posts_of posts.now) (rows_of (P.level_of posts.now)) col) }
{
    let mut record = counted(alloc, posts, col)?;
    let checksum = summed(&record);
    record.extend_from_slice(&checksum.to_be_bytes())?;
    Ok(record)
}
