// A source of posts over the cells of a store.
ghost use Rattle.std.specs.Prelude.{◌≡◌, ◌↔◌, map, IsTrue};
ghost use Rattle.cell_mosaic.specs.Source.{IsTrouble};
ghost use Rattle.std.specs.List.Sorted.{IsStrictlySortedBy, IsStrictlySortedBy-prop};
ghost use Rattle.terrain_base.specs.CellKey.{key_at, key_cmp};
ghost use Rattle.cell_cache.specs.Cached.{row_key, AreHeld};

use crate::fetch::fetched;
use crate::held::{eight, held_post, hold, last_post, last_quad};
use crate::slot::Slot;
use cell_mosaic::{PostSource, Quad, SourceFault, post_of};
use dted_cell::CellBytes;
use lru::LruCache;
use std::alloc::Global;
use terrain_base::{CellKey, CellLevel, NoMemory, Post, Square, Store, Summary};

//// The key of a summary's cell.
pub(crate) fn key_of(row: &Summary) -> CellKey
    ensures { result ≡ row_key row.now }
{
    CellKey {
        square: row.square,
        level: row.level,
    }
}

/// Whether the fault is trouble with a cell.
fn is_trouble(fault: &SourceFault) -> bool
    ensures { IsTrue result ↔ IsTrouble fault.now }
{
    matches!(fault, SourceFault::Cell(_))
}

/// A source that fetches the cells of its summaries from the store that it is lent, when their posts are asked for. It
/// holds at most 8 of them, and lets go of the least recently used. It is not sure.
#[derive(Drop)]
pub struct CachedCells {
    summaries: Vec<Summary>,
    cells: LruCache<Slot, CellBytes>,
    is_spoilt: bool,
    ghost held: { AreHeld summaries.items cells.entries },
    ghost most: { cells.cap ≡ 8 },
    ghost ascend: { IsStrictlySortedBy key_cmp (map row_key summaries.items) } by { IsStrictlySortedBy-prop key_cmp (map row_key summaries.items) },
}

impl CachedCells {
    ghost use Rattle.std.specs.Prelude.{◌≡◌, map, false, Some, IfOk};
    ghost use Rattle.std.specs.List.{list_any};
    ghost use Rattle.std.specs.FinSet as set;
    ghost use Rattle.std.specs.Ordering.{eq_by_cmp};
    ghost use Rattle.terrain_base.specs.declared.cell_key.CellKey.{CellKey};
    ghost use Rattle.terrain_base.specs.Step.{Files};
    ghost use Rattle.terrain_base.specs.declared.level.CellLevel.TheVariants as CellLevel;
    ghost use Rattle.dted_cell.specs.Elevation.{IsPost};
    ghost use Rattle.cell_mosaic.specs.Cells.{Cells, HasPost, post_at, first_level, coarser_levels};
    ghost use Rattle.cell_mosaic.specs.Source.{GivesTold, Leaves};
    ghost use Rattle.cell_mosaic.specs.Summaries.{summaries_of};
    ghost use Rattle.cell_cache.specs.Cached.{HoldsCells, shapes_of_rows};

    /// A source of the cells of these summaries, which holds none yet. It copies the summaries, and reads no store.
    pub fn new(alloc: Global, summaries: &[Summary]) -> Result<CachedCells, NoMemory>
        requires ascend { IsStrictlySortedBy key_cmp (map row_key summaries.now) }
        ensures told { IfOk result (λ source. (files : Files) (told : Cells) → summaries.now ≡ summaries_of told →
            HoldsCells files told → ⟦<CachedCells as PostSource>⟧.cells source (Some files) ≡ Some told) }
        ensures shapes { IfOk result (λ source. (key : CellKey) →
            set.contains (⟦<CachedCells as PostSource>⟧.shapes source) key
            ≡ list_any (λ row. eq_by_cmp key_cmp key (row_key row)) summaries.now) }
        ensures fresh { IfOk result (λ source. ⟦<CachedCells as PostSource>⟧.spoilt source ≡ false) }
        ensures unsure { IfOk result (λ source. ⟦<CachedCells as PostSource>⟧.sure source ≡ false) }
    {
        let summaries = summaries.to_vec(alloc)?;
        let cells = eight(alloc)?;
        Ok(CachedCells {
            summaries,
            cells,
            is_spoilt: false,
        })
    }

    // Whether the square has a cell of the level.
    #[tactic(auto, using(crate::proofs::Rows::found))]
    fn has(&self, square: Square, level: CellLevel) -> bool
        ensures { result ≡ set.contains (shapes_of_rows self.now.summaries.items) (key_at square level) }
    {
        let key = CellKey { square, level };
        self.summaries.binary_search_by_key(&key, key_of).is_ok()
    }

    // Level 0, where the square has a cell of it.
    fn zero(&self, square: Square) -> Option<CellLevel>
        ensures { result ≡ first_level (shapes_of_rows self.now.summaries.items) square (coarser_levels CellLevel.One) }
    {
        if self.has(square, CellLevel::Zero) {
            Some(CellLevel::Zero)
        } else {
            None
        }
    }

    // Level 1 or 0, the first that the square has a cell of.
    fn one_or_zero(&self, square: Square) -> Option<CellLevel>
        ensures { result ≡ first_level (shapes_of_rows self.now.summaries.items) square (coarser_levels CellLevel.Two) }
    {
        if self.has(square, CellLevel::One) {
            Some(CellLevel::One)
        } else {
            self.zero(square)
        }
    }

    // The post of the key's cell, which is fetched from the store and then held.
    fn fetched_post<S: Store>(
        &mut self,
        store: &mut S,
        key: CellKey,
        col: u16,
        row: u16,
    ) -> Result<Post, SourceFault>
        requires held { HasPost (⟦<CachedCells as PostSource>⟧.shapes self.old) key col row }
        ensures value { GivesTold (⟦<CachedCells as PostSource>⟧.cells self.old (S.holds store.old))
            (λ told. post_at told key col row) result }
        ensures height { IfOk result IsPost }
        ensures leaves { Leaves ⟦<CachedCells as PostSource>⟧.cells ⟦<CachedCells as PostSource>⟧.shapes
            ⟦<CachedCells as PostSource>⟧.sure ⟦<CachedCells as PostSource>⟧.spoilt S.holds S.log S.faults
            self.old self.new store.old store.new result }
    {
        let cell = match fetched(store, key) {
            Ok(cell) => cell,
            Err(fault) => {
                self.is_spoilt |= is_trouble(&fault);
                return Err(fault);
            }
        };
        let post = post_of(&cell, col, row);
        match hold(&mut self.cells, key, cell) {
            Ok(()) => Ok(post),
            Err(NoMemory) => Err(SourceFault::NoMemory),
        }
    }
}

impl PostSource for CachedCells {
    ghost use Rattle.std.specs.Prelude.{false};
    ghost use Rattle.cell_cache.specs.Cached.{cells_through, shapes_of_rows};
    ghost use Rattle.cell_cache.specs.CachedLaws.{told_agrees, told_by_names};

    ghost cells = { λ source files. cells_through source.summaries.items source.cells.entries files };

    ghost shapes = { λ source. shapes_of_rows source.summaries.items };

    ghost sure = { λ source. false };

    ghost spoilt = { λ source. source.is_spoilt };

    ghost agree = { λ source files told is. told_agrees source.summaries.items source.cells.entries files told is };

    ghost by_names = { λ source files files' alike.
        told_by_names source.summaries.items source.cells.entries files files' source.held alike };

    fn shape(&self, square: Square) -> Option<CellLevel> {
        if self.has(square, CellLevel::Two) {
            Some(CellLevel::Two)
        } else {
            self.one_or_zero(square)
        }
    }

    fn coarser(&self, key: CellKey) -> Option<CellLevel> {
        match key.level {
            CellLevel::Two => self.one_or_zero(key.square),
            CellLevel::One => self.zero(key.square),
            CellLevel::Zero => None,
        }
    }

    fn post<S: Store>(
        &mut self,
        store: &mut S,
        key: CellKey,
        col: u16,
        row: u16,
    ) -> Result<Post, SourceFault> {
        if let Some(post) = last_post(&self.cells, key, col, row) {
            return Ok(post);
        }
        if let Some(post) = held_post(&mut self.cells, key, col, row) {
            return Ok(post);
        }
        self.fetched_post(store, key, col, row)
    }

    fn posts_round<S: Store>(
        &mut self,
        store: &mut S,
        key: CellKey,
        col: u16,
        row: u16,
        on_column: bool,
        on_row: bool,
    ) -> Result<Quad, SourceFault> {
        if let Some(quad) = self.round_at_hand(key, col, row, on_column, on_row) {
            return Ok(quad);
        }
        // The first post fetches the cell, and the others find it as the last.
        self.posts_one_by_one(store, key, col, row, on_column, on_row)
    }

    // The cell at hand is the last.
    fn round_at_hand(
        &self,
        key: CellKey,
        col: u16,
        row: u16,
        on_column: bool,
        on_row: bool,
    ) -> Option<Quad> {
        last_quad(&self.cells, key, col, row, on_column, on_row)
    }
}
