// A source of posts.
ghost use Rattle.std.specs.Prelude.{◌≡◌, ◌+◌, ◌<◌, Bool, Option, Some, IfOk, IfSome, IsFalse};
ghost use Rattle.terrain_base.specs.Step.{Files};
ghost use Rattle.dted_cell.specs.Elevation.{IsPost};
ghost use Rattle.cell_mosaic.specs.Cells.{Cells, Shapes, AreCells, HasPost, post_at, finest_of, coarser_of};
ghost use Rattle.cell_mosaic.specs.Source.{GivesTold, Leaves, AlikeCells};
ghost use Rattle.cell_mosaic.specs.Value.{unless_ignored, quad_round, ArePosts};

use crate::{Quad, SourceFault};
use terrain_base::{CellKey, CellLevel, Post, Square, Store};

/// What gives the posts of cells, by key, column and row, and may read them from a store that it is lent.
pub trait PostSource {
    /// The cells by their keys, where they are told, over what the store that is lent holds.
    ghost cells: { Self → Option Files → Option Cells };

    /// The keys that have a cell.
    ghost shapes: { Self → Shapes };

    /// Whether a post always comes.
    ghost sure: { Self → Bool };

    /// Whether trouble with a cell was answered. A caller that met it cannot answer Ok, since that leaves it as it was.
    ghost spoilt: { Self → Bool };

    /// The finest level of the square's cells. `None` exactly where the square has none.
    fn shape(&self, square: Square) -> Option<CellLevel>
        ensures { result ≡ finest_of (shapes self.now) square };

    /// The next coarser level of the cells of the key's square. `None` exactly where there is none.
    fn coarser(&self, key: CellKey) -> Option<CellLevel>
        ensures { result ≡ coarser_of (shapes self.now) key };

    /// The post in a column from the west and a row from the south of the key's cell: void, or metres within
    /// -16000 to 16000. A sure source always answers Ok. `Failed` is answered only where the store's count of faults
    /// rose, and `Cell` only where the store's files, if they are told, show it, and never where the cells are told;
    /// it spoils the source, which an Ok does not. Changes nothing that the store holds and adds nothing to its log,
    /// whatever it answers.
    fn post<S: Store>(
        &mut self,
        store: &mut S,
        key: CellKey,
        col: u16,
        row: u16,
    ) -> Result<Post, SourceFault>
        requires held { HasPost (shapes self.old) key col row }
        ensures value { GivesTold (cells self.old (S.holds store.old))
            (λ told. post_at told key col row) result }
        ensures height { IfOk result IsPost }
        ensures leaves { Leaves cells shapes sure spoilt S.holds S.log S.faults
            self.old self.new store.old store.new result };

    /// The post, or a void in its place where it is ignored. Answers and changes are those of `post`.
    fn post_unless<S: Store>(
        &mut self,
        is_ignored: bool,
        store: &mut S,
        key: CellKey,
        col: u16,
        row: u16,
    ) -> Result<Post, SourceFault>
        requires held { IsFalse is_ignored → HasPost (shapes self.old) key col row }
        ensures value { GivesTold (cells self.old (S.holds store.old))
            (λ told. unless_ignored is_ignored (post_at told key col row)) result }
        ensures height { IfOk result IsPost }
        ensures leaves { Leaves cells shapes sure spoilt S.holds S.log S.faults
            self.old self.new store.old store.new result }
    {
        if is_ignored {
            return Ok(Post::Void);
        }
        self.post(store, key, col, row)
    }

    /// The posts round a point of the key's cell, each by a call of `post`, for sources that have no shorter way to
    /// `posts_round` or not always.
    fn posts_one_by_one<S: Store>(
        &mut self,
        store: &mut S,
        key: CellKey,
        col: u16,
        row: u16,
        on_column: bool,
        on_row: bool,
    ) -> Result<Quad, SourceFault>
        requires sw { HasPost (shapes self.old) key col row }
        requires se { IsFalse on_column → HasPost (shapes self.old) key (col + 1) row }
        requires nw { IsFalse on_row → HasPost (shapes self.old) key col (row + 1) }
        requires small { (col < 3601) × (row < 3601) }
        ensures value { GivesTold (cells self.old (S.holds store.old))
            (λ told. quad_round (post_at told key) col row on_column on_row) result }
        ensures height { IfOk result ArePosts }
        ensures leaves { Leaves cells shapes sure spoilt S.holds S.log S.faults
            self.old self.new store.old store.new result }
    {
        let sw = self.post(store, key, col, row)?;
        let se = self.post_unless(on_column, store, key, col + 1, row)?;
        let nw = self.post_unless(on_row, store, key, col, row + 1)?;
        let ne = self.post_unless(on_column || on_row, store, key, col + 1, row + 1)?;
        Ok(Quad { sw, se, nw, ne })
    }

    /// The posts round a point of the key's cell. The south-western one is that of the column and the row; where the
    /// point lies on the column or on the row, voids stand in place of those beyond, which have the weight 0. Answers
    /// and changes are those of `post`.
    fn posts_round<S: Store>(
        &mut self,
        store: &mut S,
        key: CellKey,
        col: u16,
        row: u16,
        on_column: bool,
        on_row: bool,
    ) -> Result<Quad, SourceFault>
        requires sw { HasPost (shapes self.old) key col row }
        requires se { IsFalse on_column → HasPost (shapes self.old) key (col + 1) row }
        requires nw { IsFalse on_row → HasPost (shapes self.old) key col (row + 1) }
        requires small { (col < 3601) × (row < 3601) }
        ensures value { GivesTold (cells self.old (S.holds store.old))
            (λ told. quad_round (post_at told key) col row on_column on_row) result }
        ensures height { IfOk result ArePosts }
        ensures leaves { Leaves cells shapes sure spoilt S.holds S.log S.faults
            self.old self.new store.old store.new result }
    {
        self.posts_one_by_one(store, key, col, row, on_column, on_row)
    }

    /// The same posts where the source has the key's cell at hand. Where it would have to look the cell up, or to fetch
    /// it, it may answer `None`, which says nothing of the cell: `posts_round` has the posts all the same.
    fn round_at_hand(
        &self,
        key: CellKey,
        col: u16,
        row: u16,
        on_column: bool,
        on_row: bool,
    ) -> Option<Quad>
        requires sw { HasPost (shapes self.now) key col row }
        requires se { IsFalse on_column → HasPost (shapes self.now) key (col + 1) row }
        requires nw { IsFalse on_row → HasPost (shapes self.now) key col (row + 1) }
        requires small { (col < 3601) × (row < 3601) }
        ensures value { IfSome result (λ quad. (files : Option Files) (told : Cells) → cells self.now files ≡ Some told
            → quad ≡ quad_round (post_at told key) col row on_column on_row) }
        ensures height { IfSome result ArePosts }
    {
        None
    }

    /// Told cells are cells of their keys, and these are those of the shapes.
    ghost agree: { (source : Self) (files : Option Files) (told : Cells) →
        cells source files ≡ Some told → AreCells told (shapes source) };

    /// What is told depends on the files under the names of these keys' cells alone.
    ghost by_names: { (source : Self) (files files' : Option Files) →
        AlikeCells (shapes source) files files' → cells source files ≡ cells source files' };
}
