// A grid over cells that lie far from each other, and how a source is asked for their posts.
ghost use Rattle.std.specs.Prelude.{◌≡◌};

use cell_mosaic::{PostSource, SourceFault, WholeCells, candidates};
use dted_cell::CellBytes;
use dted_write::{generate, mix};
use resample::tile_grid;
use std::alloc::Global;
use std::collections::BTreeSet;
use terrain_base::{CellKey, CellLevel, Grid, NoMemory, Post, Square, Store, SureStore, TileId};
use tms_tree::tile_place;

// Cells in memory, and how they are asked for.
#[derive(Drop)]
struct Counted {
    cells: WholeCells,
    last: Option<CellKey>,
    asked: BTreeSet<CellKey>,
    turns: u32,
}

impl Counted {
    // Counts a post of the key's cell: a turn, where the post before it was of another.
    fn count(&mut self, key: CellKey) -> Result<(), NoMemory>
        ensures { self.new.cells ≡ self.old.cells }
    {
        let is_same = match self.last {
            Some(last) => last.is(&key),
            None => false,
        };
        use tms_tree::tile_place;
        if !is_same {
            self.turns = self.turns.saturating_add(1);
            self.last = Some(key);
            self.asked.insert(key)?;
        }
        Ok(())
    }
}

impl PostSource for Counted {
    ghost use Rattle.std.specs.Prelude.{false, refl};
    ghost use Rattle.cell_mosaic.specs.WholeAgrees.{whole_agrees};

    ghost cells = { λ source files. ⟦<WholeCells as PostSource>⟧.cells source.cells files };

    ghost shapes = { λ source. ⟦<WholeCells as PostSource>⟧.shapes source.cells };

    ghost sure = { λ source. false };

    ghost spoilt = { λ source. false };

    ghost agree = { λ source files told is. whole_agrees source.cells.cells.entries told source.cells.good is };

    ghost by_names = { λ source files files' alike. refl };

    fn shape(&self, square: Square) -> Option<CellLevel> {
        self.cells.shape(square)
    }

    fn coarser(&self, key: CellKey) -> Option<CellLevel> {
        self.cells.coarser(key)
    }

    fn post<S: Store>(
        &mut self,
        store: &mut S,
        key: CellKey,
        col: u16,
        row: u16,
    ) -> Result<Post, SourceFault> {
        match self.count(key) {
            Ok(()) => self.cells.post(store, key, col, row),
            Err(NoMemory) => Err(SourceFault::NoMemory),
        }
    }
}

// A square that holds a grid point of the tile, which the number chooses.
fn square_of(tile: TileId, number: u64) -> Option<Square> {
    let bits = mix(number);
    let (column, row) = ((bits % 67) as u8, ((bits >> 32) % 67) as u8);
    let near = candidates(tile_place(tile, column, row));
    if near.count() == 0 {
        return None;
    }
    Some(near.at(0))
}

// Adds a generated cell of level 0 of the square. `false` where the square has a cell, or for want of memory.
fn add(alloc: Global, cells: &mut WholeCells, number: u64, square: Square) -> bool {
    let Ok(text) = generate(alloc, number, square, CellLevel::Zero) else {
        return false;
    };
    let Ok(cell) = CellBytes::check(text) else {
        return false;
    };
    if cells.shape(cell.view().square()).is_some() {
        return false;
    }
    cells.put(cell).is_ok()
}

/// What is counted of a grid over scattered cells: the cells, those that were asked for, and how often the posts turned
/// to another cell than that of the post before.
#[derive(Clone, Copy)]
pub struct Scattered {
    pub cells: u32,
    pub asked: usize,
    pub turns: u32,
}

/// The same of the western tile of level 0 over at most so many cells of level 0. `None` where a post could not be had.
pub(crate) fn of_cells(alloc: Global, count: u32) -> Result<Option<Scattered>, NoMemory> {
    let Some(tile) = TileId::of(0, 0, 0) else {
        return Ok(None);
    };
    let mut whole = WholeCells::new(alloc);
    let mut cells: u32 = 0;
    for number in 0..count {
        if let Some(square) = square_of(tile, u64::from(number)) {
            cells = cells.wrapping_add(u32::from(add(
                alloc,
                &mut whole,
                2 * u64::from(number),
                square,
            )));
        }
    }
    let mut source = Counted {
        cells: whole,
        last: None,
        asked: BTreeSet::new(alloc),
        turns: 0,
    };
    let mut grid = Grid::new(alloc)?;
    match tile_grid(&mut source, &mut SureStore::new(alloc), 0, tile, &mut grid) {
        Ok(()) => Ok(Some(Scattered {
            cells,
            asked: source.asked.len(),
            turns: source.turns,
        })),
        Err(_) => Ok(None),
    }
}
