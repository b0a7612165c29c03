// What a cell is written from.
ghost use Rattle.std.specs.Prelude.{◌≡◌, ◌<◌, ℕ};
ghost use Rattle.terrain_base.specs.declared.level.CellLevel as coded_level;
ghost use Rattle.terrain_base.specs.declared.post.Post as coded_post;
ghost use Rattle.terrain_base.specs.declared.square.Square as coded_square;
ghost use Rattle.terrain_base.specs.Level.{rows_of, columns_of};
ghost use Rattle.dted_write.specs.Post.{IsPost};

use terrain_base::{CellLevel, Post, Square};

/// The posts of a square's cell of a level, wherever they come from: each a void, or from -16000 to 16000 whole metres.
pub trait PostTable {
    /// The square of the cell.
    ghost square_of: { Self → coded_square.Square };

    /// The level of the cell.
    ghost level_of: { Self → coded_level.CellLevel };

    /// The post of each column, counted from the west, and row, counted from the south.
    ghost posts_of: { Self → ℕ → ℕ → coded_post.Post };

    /// The square of the cell.
    fn square(&self) -> Square
        ensures { result ≡ square_of self.now };

    /// The level of the cell.
    fn level(&self) -> CellLevel
        ensures { result ≡ level_of self.now };

    /// The post of a column, counted from the west, and a row, counted from the south.
    fn post(&self, col: u16, row: u16) -> Post
        requires col { col < columns_of (square_of self.now) (level_of self.now) }
        requires row { row < rows_of (level_of self.now) }
        ensures value { result ≡ posts_of self.now col row }
        ensures height { IsPost result };
}
