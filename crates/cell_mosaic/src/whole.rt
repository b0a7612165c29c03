// All cells in memory.
ghost use Rattle.std.specs.Prelude.{◌≡◌, ◌<◌, false};
ghost use Rattle.dted_cell.specs.Cell.{columns_in, rows_in, post_in};
ghost use Rattle.dted_cell.specs.Trouble.{IsCellAt};
ghost use Rattle.dted_cell.specs.Elevation.{IsPost};
ghost use Rattle.cell_mosaic.specs.Cells.{first_level, coarser_levels};
ghost use Rattle.terrain_base.specs.CellKey.{key_at};
ghost use Rattle.terrain_base.specs.declared.level.CellLevel.TheVariants as CellLevel;
ghost use Rattle.cell_mosaic.specs.Whole.{AreOfKeys};

use crate::{PostSource, Quad, SourceFault, quad_of};
use dted_cell::CellBytes;
use std::alloc::Global;
use std::collections::BTreeMap;
use terrain_base::{CellKey, CellLevel, Post, Square, Store};

/// The cell's key. Its bytes are asked for since they tell that it is a cell.
fn key_of(cell: &CellBytes) -> CellKey
    ensures { IsCellAt result cell.now }
{
    let _bytes = cell.bytes();
    let view = cell.view();
    CellKey {
        square: view.square(),
        level: view.level(),
    }
}

/// The post in a column from the west and a row from the south of the cell: void, or metres within -16000 to 16000.
pub fn post_of(cell: &CellBytes, col: u16, row: u16) -> Post
    requires col { col < columns_in cell.now }
    requires row { row < rows_in cell.now }
    ensures value { result ≡ post_in cell.now col row }
    ensures height { IsPost result }
{
    let view = cell.view();
    view.post(col, row)
}

/// Want of memory, with the cell that was to be put.
#[derive(Drop)]
pub struct NoRoom {
    pub cell: CellBytes,
}

/// A source that keeps all its cells in memory. It is sure, and does not use the store that it is lent.
#[derive(Drop)]
pub struct WholeCells {
    cells: BTreeMap<CellKey, CellBytes>,
    ghost good: { AreOfKeys cells.entries },
}

impl WholeCells {
    ghost use Rattle.std.specs.Prelude.{Some, None, Option, OnOk, OnErr, IfErr};
    ghost use Rattle.std.specs.FinMap as map;
    ghost use Rattle.std.specs.FinSet as set;
    ghost use Rattle.terrain_base.specs.Step.{Files};
    ghost use Rattle.cell_mosaic.specs.Whole.{key_in, shapes_of, with_cell, with_shape};

    /// A source without cells. Takes no memory.
    pub fn new(alloc: Global) -> WholeCells
        ensures cells { (files : Option Files) →
            ⟦<WholeCells as PostSource>⟧.cells result files ≡ Some map.empty }
        ensures shapes { ⟦<WholeCells as PostSource>⟧.shapes result ≡ set.empty }
    {
        WholeCells {
            cells: BTreeMap::new(alloc),
        }
    }

    /// Puts one cell more, whose key has none. For want of memory the cell is handed back and nothing is changed.
    pub fn put(&mut self, cell: CellBytes) -> Result<(), NoRoom>
        requires { set.contains (⟦<WholeCells as PostSource>⟧.shapes self.old) (key_in cell) ≡ false }
        ensures cells { OnOk result ((files : Option Files) →
            ⟦<WholeCells as PostSource>⟧.cells self.new files
            ≡ with_cell cell (⟦<WholeCells as PostSource>⟧.cells self.old files)) }
        ensures shapes { OnOk result (⟦<WholeCells as PostSource>⟧.shapes self.new
            ≡ with_shape cell (⟦<WholeCells as PostSource>⟧.shapes self.old)) }
        ensures returned { IfErr result (λ room. room.cell ≡ cell) }
        ensures cells_stay { OnErr result ((files : Option Files) →
            ⟦<WholeCells as PostSource>⟧.cells self.new files
            ≡ ⟦<WholeCells as PostSource>⟧.cells self.old files) }
        ensures shapes_stay { OnErr result (⟦<WholeCells as PostSource>⟧.shapes self.new
            ≡ ⟦<WholeCells as PostSource>⟧.shapes self.old) }
    {
        let key = key_of(&cell);
        match self.cells.insert(key, cell) {
            Ok(_) => Ok(()),
            Err(back) => Err(NoRoom { cell: back.value.1 }),
        }
    }

    // Whether the square has a cell of the level.
    fn has(&self, square: Square, level: CellLevel) -> bool
        ensures { result ≡ set.contains (shapes_of self.now.cells.entries) (key_at square level) }
    {
        self.cells.contains_key(&CellKey { square, level })
    }

    // Level 0, where the square has a cell of it.
    fn zero(&self, square: Square) -> Option<CellLevel>
        ensures { result ≡ first_level (shapes_of self.now.cells.entries) square (coarser_levels CellLevel.One) }
    {
        if self.has(square, CellLevel::Zero) {
            Some(CellLevel::Zero)
        } else {
            None
        }
    }

    // Level 1 or 0, the first that the square has a cell of.
    fn one_or_zero(&self, square: Square) -> Option<CellLevel>
        ensures { result ≡ first_level (shapes_of self.now.cells.entries) square (coarser_levels CellLevel.Two) }
    {
        if self.has(square, CellLevel::One) {
            Some(CellLevel::One)
        } else {
            self.zero(square)
        }
    }
}

impl PostSource for WholeCells {
    ghost use Rattle.std.specs.Prelude.{◌+◌, true, false, refl, Some, IfOk, IsOk, IsFalse};
    ghost use Rattle.cell_mosaic.specs.Cells.{HasPost, post_at};
    ghost use Rattle.cell_mosaic.specs.Source.{GivesTold};
    ghost use Rattle.cell_mosaic.specs.Whole.{cells_of, shapes_of};
    ghost use Rattle.cell_mosaic.specs.Value.{quad_round, ArePosts};
    ghost use Rattle.cell_mosaic.specs.WholeAgrees.{whole_agrees};

    ghost cells = { λ source files. Some (cells_of source.cells.entries) };

    ghost shapes = { λ source. shapes_of source.cells.entries };

    ghost sure = { λ source. true };

    ghost spoilt = { λ source. false };

    ghost agree = { λ source files told is. whole_agrees source.cells.entries told source.good is };

    ghost by_names = { λ source files files' alike. refl };

    fn shape(&self, square: Square) -> Option<CellLevel> {
        if self.has(square, CellLevel::Two) {
            Some(CellLevel::Two)
        } else {
            self.one_or_zero(square)
        }
    }

    fn coarser(&self, key: CellKey) -> Option<CellLevel> {
        match key.level {
            CellLevel::Two => self.one_or_zero(key.square),
            CellLevel::One => self.zero(key.square),
            CellLevel::Zero => None,
        }
    }

    fn post<S: Store>(
        &mut self,
        _store: &mut S,
        key: CellKey,
        col: u16,
        row: u16,
    ) -> Result<Post, SourceFault>
        requires held { HasPost (⟦<WholeCells as PostSource>⟧.shapes self.old) key col row }
        ensures value { GivesTold (⟦<WholeCells as PostSource>⟧.cells self.old (S.holds _store.old))
            (λ told. post_at told key col row) result }
        ensures height { IfOk result IsPost }
        // It needs no store: whatever store is lent, the answer is Ok, and cells and store stay as they were.
        ensures sure { IsOk result }
        ensures same { self.new ≡ self.old }
        ensures unused { _store.new ≡ _store.old }
    {
        let Some(cell) = self.cells.get(&key) else {
            unreachable!()
        };
        Ok(post_of(cell, col, row))
    }

    fn posts_round<S: Store>(
        &mut self,
        _store: &mut S,
        key: CellKey,
        col: u16,
        row: u16,
        on_column: bool,
        on_row: bool,
    ) -> Result<Quad, SourceFault>
        requires sw { HasPost (⟦<WholeCells as PostSource>⟧.shapes self.old) key col row }
        requires se { IsFalse on_column → HasPost (⟦<WholeCells as PostSource>⟧.shapes self.old) key (col + 1) row }
        requires nw { IsFalse on_row → HasPost (⟦<WholeCells as PostSource>⟧.shapes self.old) key col (row + 1) }
        requires small { (col < 3601) × (row < 3601) }
        ensures value { GivesTold (⟦<WholeCells as PostSource>⟧.cells self.old (S.holds _store.old))
            (λ told. quad_round (post_at told key) col row on_column on_row) result }
        ensures height { IfOk result ArePosts }
        // As for one post: the answer is Ok, and cells and store stay as they were.
        ensures sure { IsOk result }
        ensures same { self.new ≡ self.old }
        ensures unused { _store.new ≡ _store.old }
    {
        let Some(held) = self.cells.get(&key) else {
            unreachable!()
        };
        Ok(quad_of(held, col, row, on_column, on_row))
    }
}
