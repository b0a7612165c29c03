//! The rows of a database, its cells in short, when a cell is put or dropped.
ghost use Rattle.std.specs.Prelude.{◌≡◌, true, false, None, IfOk};
ghost use Rattle.std.specs.List.{filter};
ghost use Rattle.dted_cell.specs.Refusal.{refusal_of};
ghost use Rattle.cell_mosaic.specs.Cells.{IsSoundCell};
ghost use Rattle.cell_mosaic.specs.Summaries.{summary_of};
ghost use Rattle.cell_mosaic.specs.Whole.{key_in};
ghost use Rattle.database.specs.Cells.{AreRows, row_key, has_row};
ghost use Rattle.db_engine.specs.Rows.{HasRoom, is_before, is_behind, with_row, without_row};

use db_files::row_key;
use dted_cell::{CellBytes, CellView};
use std::alloc::{AllocError, Global};
use terrain_base::{CellKey, Summary};

// A cell in short, by its bytes.
fn row_in(bytes: &[u8], view: &CellView<'_>) -> Summary
    requires view { view.now ≡ bytes.now }
    requires cell { refusal_of bytes.now ≡ None }
    ensures value { result ≡ summary_of (key_in bytes.now) bytes.now }
    ensures sound { IsSoundCell (key_in bytes.now) bytes.now }
{
    let _bytes = bytes;
    Summary {
        square: view.square(),
        level: view.level(),
        extremes: view.extremes(),
    }
}

// A cell in short. Its bytes are handed on since they tell that it is a cell.
pub(crate) fn row_of(cell: &CellBytes) -> Summary
    ensures value { result ≡ summary_of (key_in cell.now) cell.now }
    ensures sound { IsSoundCell (key_in cell.now) cell.now }
{
    row_in(cell.bytes(), &cell.view())
}

// The rows before this key.
fn rows_before(alloc: Global, rows: &[Summary], key: CellKey) -> Result<Vec<Summary>, AllocError>
    ensures { IfOk result (λ list. list.items ≡ filter (is_before key) rows.now) }
{
    rows.iter()
        .copied()
        .filter(|row| row_key(row).precedes(&key))
        .collect(alloc)
}

// The rows behind it.
fn rows_behind(alloc: Global, rows: &[Summary], key: CellKey) -> Result<Vec<Summary>, AllocError>
    ensures { IfOk result (λ list. list.items ≡ filter (is_behind key) rows.now) }
{
    rows.iter()
        .copied()
        .filter(|row| key.precedes(&row_key(row)))
        .collect(alloc)
}

// The rows with this one in its place, instead of the row of its key where there is one.
pub(crate) fn with_row(
    alloc: Global,
    rows: &[Summary],
    row: Summary,
) -> Result<Vec<Summary>, AllocError>
    requires rows { AreRows rows.now }
    requires room { HasRoom rows.now (row_key row) }
    ensures value { IfOk result (λ list. list.items ≡ with_row rows.now row) }
    ensures rows { IfOk result (λ list. AreRows list.items) }
    ensures there { IfOk result (λ list. has_row list.items (row_key row) ≡ true) }
{
    let key = row_key(&row);
    let mut list = rows_before(alloc, rows, key)?;
    list.push(row)?;
    let behind = rows_behind(alloc, rows, key)?;
    list.extend_from_slice(&behind)?;
    Ok(list)
}

// The rows of all other keys.
fn rows_but(alloc: Global, rows: &[Summary], key: CellKey) -> Result<Vec<Summary>, AllocError>
    ensures { IfOk result (λ list. list.items ≡ without_row rows.now key) }
{
    rows.iter()
        .copied()
        .filter(|row| row_key(row) != key)
        .collect(alloc)
}

// The rows without that of the key.
pub(crate) fn without_row(
    alloc: Global,
    rows: &[Summary],
    key: CellKey,
) -> Result<Vec<Summary>, AllocError>
    requires { AreRows rows.now }
    ensures value { IfOk result (λ list. list.items ≡ without_row rows.now key) }
    ensures rows { IfOk result (λ list. AreRows list.items) }
    ensures gone { IfOk result (λ list. has_row list.items key ≡ false) }
{
    let list = rows_but(alloc, rows, key)?;
    Ok(list)
}
