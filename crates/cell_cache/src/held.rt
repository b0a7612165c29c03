// The cells that are held.
ghost use Rattle.std.specs.Prelude.{◌≡◌, ◌⊎◌, [], List, ℕ, Contains, IfOk, IfSome, OnErr};
ghost use Rattle.cell_cache.specs.declared.slot.Slot as slots;
ghost use Rattle.cell_cache.specs.Slot.{slot_at};
ghost use Rattle.cell_cache.specs.Held.{Reaches, IsHeldPost, ReachesRound, IsHeldQuad};
ghost use Rattle.lru.specs.LruCache.{lru_cache, promoted};

use crate::slot::{Slot, slot_of};
use cell_mosaic::{Quad, post_of, quad_of};
use dted_cell::CellBytes;
use lru::LruCache;
use std::alloc::Global;
use std::num::NonZeroUsize;
use terrain_base::{CellKey, NoMemory, Post};

/// Room for eight cells.
pub(crate) fn eight(alloc: Global) -> Result<LruCache<Slot, CellBytes>, NoMemory>
    ensures most { IfOk result (λ cells. cells.cap ≡ 8) }
    ensures none { IfOk result (λ cells. cells.entries ≡ []) }
{
    let Some(most) = NonZeroUsize::new(8) else {
        unreachable!()
    };
    Ok(LruCache::new(alloc, most)?)
}

/// The cell that was used last, where this is the key's. It is not looked up.
fn last_cell(cells: &LruCache<Slot, CellBytes>, key: CellKey) -> Option<&CellBytes>
    ensures { IfSome result (λ cell. Contains cells.now.entries (slot_at key, cell.now)) }
{
    match cells.peek_mru() {
        Some((slot, cell)) if *slot == slot_of(key) => Some(cell),
        _ => None,
    }
}

/// The post of the cell that was used last, where this is the key's.
pub(crate) fn last_post(
    cells: &LruCache<Slot, CellBytes>,
    key: CellKey,
    col: u16,
    row: u16,
) -> Option<Post>
    requires reaches { Reaches cells.now.entries key col row }
    ensures { IfSome result (IsHeldPost cells.now.entries key col row) }
{
    let cell = last_cell(cells, key)?;
    Some(post_of(cell, col, row))
}

/// The posts round a point of the cell that was used last, where this is the key's.
pub(crate) fn last_quad(
    cells: &LruCache<Slot, CellBytes>,
    key: CellKey,
    col: u16,
    row: u16,
    on_column: bool,
    on_row: bool,
) -> Option<Quad>
    requires reaches { ReachesRound cells.now.entries key col row on_column on_row }
    ensures { IfSome result (IsHeldQuad cells.now.entries key col row on_column on_row) }
{
    let cell = last_cell(cells, key)?;
    Some(quad_of(cell, col, row, on_column, on_row))
}

/// The post of the key's cell, where it is held. The cell is then the one that was used last.
pub(crate) fn held_post(
    cells: &mut LruCache<Slot, CellBytes>,
    key: CellKey,
    col: u16,
    row: u16,
) -> Option<Post>
    requires reaches { Reaches cells.old.entries key col row }
    ensures post { IfSome result (IsHeldPost cells.old.entries key col row) }
    ensures cells { cells.new
        ≡ lru_cache (promoted (⟦<Slot as PartialEq>⟧.eq (slot_at key)) cells.old.entries) cells.old.cap }
{
    match cells.get(&slot_of(key)) {
        Some(cell) => Some(post_of(cell, col, row)),
        None => None,
    }
}

/// Holds one cell more, as the one that was used last. Where there are too many the least recently used goes.
pub(crate) fn hold(
    cells: &mut LruCache<Slot, CellBytes>,
    key: CellKey,
    cell: CellBytes,
) -> Result<(), NoMemory>
    ensures others { (slot : slots.Slot) (bytes : List ℕ) → Contains cells.new.entries (slot, bytes) →
        Contains cells.old.entries (slot, bytes) ⊎ ((slot ≡ slot_at key) × (bytes ≡ cell)) }
    ensures most { cells.new.cap ≡ cells.old.cap }
{
    cells.put(slot_of(key), cell)?;
    Ok(())
}
