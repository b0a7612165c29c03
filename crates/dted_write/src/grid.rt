// The posts of a cell that is to be written. It stands alone here: what it holds is said in `posts`.
ghost use Rattle.std.specs.Prelude.{◌≡◌, ◌*◌, length, All};
ghost use Rattle.terrain_base.specs.Level.{rows_of, columns_of};
ghost use Rattle.dted_write.specs.Post.{IsPost};

use terrain_base::{CellLevel, Post, Square};

/// The posts of a square's cell of a level: each a void, or from -16000 to 16000 whole metres.
#[derive(Drop)]
pub struct PostGrid {
    pub(crate) square: Square,
    pub(crate) level: CellLevel,
    // Column by column from the west, each from the south on.
    pub(crate) posts: Vec<Post>,
    pub ghost size: { length posts.items ≡ columns_of square level * rows_of level },
    pub ghost heights: { All IsPost posts.items },
}
