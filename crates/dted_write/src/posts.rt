// What a grid holds, post by post.
ghost use Rattle.std.specs.Prelude.{◌≡◌, ◌≢◌, ◌⊎◌, ◌+◌, ◌*◌, ◌<◌, length, ℕ, IfOk};
ghost use Rattle.terrain_base.specs.Level.{rows_of, columns_of};
ghost use Rattle.dted_write.specs.Post.{IsPost};
ghost use Rattle.dted_write.specs.Grid.{post_at};

use crate::{PostGrid, PostTable};
use std::alloc::Global;
use terrain_base::{CellLevel, NoMemory, Post, Square, columns, rows};

impl PostGrid {
    /// A grid that has this post everywhere.
    #[tactic(auto, unfolding(crate::specs::Grid::post_at))]
    pub fn filled(
        alloc: Global,
        square: Square,
        level: CellLevel,
        post: Post,
    ) -> Result<PostGrid, NoMemory>
        requires { IsPost post }
        ensures shape { IfOk result (λ grid. (grid.square ≡ square) × (grid.level ≡ level)) }
        ensures posts { IfOk result (λ grid. (col row : ℕ) → col < columns_of square level →
            row < rows_of level → post_at grid col row ≡ post) }
    {
        let count = columns(square, level) as usize * rows(level) as usize;
        let posts = vec![in alloc; post; count]?;
        Ok(PostGrid {
            square,
            level,
            posts,
        })
    }

    /// The square of the cell.
    pub fn square(&self) -> Square
        ensures { result ≡ self.now.square }
    {
        self.square
    }

    /// The level of the cell.
    pub fn level(&self) -> CellLevel
        ensures { result ≡ self.now.level }
    {
        self.level
    }

    /// Where the post of a column and a row stands.
    fn place(&self, col: u16, row: u16) -> usize
        requires col { col < columns_of self.now.square self.now.level }
        requires row { row < rows_of self.now.level }
        ensures place { result ≡ col * rows_of self.now.level + row }
        ensures within { result < length self.now.posts.items }
    {
        col as usize * rows(self.level) as usize + row as usize
    }

    /// The post of a column, counted from the west, and a row, counted from the south.
    #[tactic(auto, unfolding(crate::specs::Grid::post_at))]
    pub fn get(&self, col: u16, row: u16) -> Post
        requires col { col < columns_of self.now.square self.now.level }
        requires row { row < rows_of self.now.level }
        ensures value { result ≡ post_at self.now col row }
        ensures height { IsPost result }
    {
        self.posts[self.place(col, row)]
    }

    /// Sets the post of a column and a row, and leaves all others.
    #[tactic(auto, unfolding(crate::specs::Grid::post_at))]
    pub fn set(&mut self, col: u16, row: u16, post: Post)
        requires col { col < columns_of self.old.square self.old.level }
        requires row { row < rows_of self.old.level }
        requires height { IsPost post }
        ensures shape { (self.new.square ≡ self.old.square) × (self.new.level ≡ self.old.level) }
        ensures value { post_at self.new col row ≡ post }
        ensures others { (c r : ℕ) → r < rows_of self.old.level → (c ≢ col) ⊎ (r ≢ row) →
            post_at self.new c r ≡ post_at self.old c r }
    {
        let place = self.place(col, row);
        self.posts[place] = post;
    }
}

impl PostTable for PostGrid {
    ghost square_of = { λ grid. grid.square };

    ghost level_of = { λ grid. grid.level };

    ghost posts_of = { post_at };

    fn square(&self) -> Square {
        self.square
    }

    fn level(&self) -> CellLevel {
        self.level
    }

    fn post(&self, col: u16, row: u16) -> Post {
        self.get(col, row)
    }
}
