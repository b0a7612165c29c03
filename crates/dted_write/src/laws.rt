//! What is known of the text of a cell that is written. The function does nothing: its contract is a law.
ghost use Rattle.std.specs.Prelude.{◌<◌, ℕ};
ghost use Rattle.terrain_base.specs.declared.square.Square.{Square};
ghost use Rattle.terrain_base.specs.declared.level.CellLevel.{CellLevel};
ghost use Rattle.terrain_base.specs.declared.post.Post.{Post};
ghost use Rattle.terrain_base.specs.Level.{rows_of, columns_of};
ghost use Rattle.dted_cell.specs.Cell.{IsCell};
ghost use Rattle.dted_write.specs.declared.grid.PostGrid.{PostGrid};
ghost use Rattle.dted_write.specs.Post.{IsPost};
ghost use Rattle.dted_write.specs.Grid.{post_at};
ghost use Rattle.dted_write.specs.Cell.{cell_text, columns_from};

/// The text of a square, a level and posts is a cell of that square, that level and those posts, and so is the
/// text of every grid. So what is written is read again.
pub fn what_is_written_is_read()
    ensures posts { (square : Square) (level : CellLevel) (post : ℕ → ℕ → Post) →
        ((col row : ℕ) → col < columns_of square level → row < rows_of level → IsPost (post col row)) →
        IsCell (cell_text square level post) square level (columns_from square level post) }
    ensures grid { (grid : PostGrid) →
        IsCell (cell_text grid.square grid.level (post_at grid)) grid.square grid.level
        (columns_from grid.square grid.level (post_at grid)) }
{}
