// The rows of a database by their keys.
ghost use Rattle.std.specs.Prelude.{◌≡◌, IfOk};
ghost use Rattle.database.specs.Cells.{AreRows, row_key, row_keys, has_row};

use std::alloc::{AllocError, Global};
use terrain_base::{CellKey, Summary};

/// The key of a row.
pub fn row_key(row: &Summary) -> CellKey
    ensures { result ≡ row_key row.now }
{
    CellKey {
        square: row.square,
        level: row.level,
    }
}

/// Whether the key has a row.
pub fn has_row(rows: &[Summary], key: CellKey) -> bool
    ensures { result ≡ has_row rows.now key }
{
    rows.iter().any(|row| key == row_key(row))
}

// Whether the key has a row among rows that ascend. It halves them, since a rebuilding asks it for each held name.
pub(crate) fn finds_row(rows: &[Summary], key: CellKey) -> bool
    requires { AreRows rows.now }
    ensures { result ≡ has_row rows.now key }
{
    rows.binary_search_by_key(&key, row_key).is_ok()
}

// The key of each row.
pub(crate) fn keys_of(alloc: Global, rows: &[Summary]) -> Result<Vec<CellKey>, AllocError>
    ensures { IfOk result (λ keys. keys.items ≡ row_keys rows.now) }
{
    rows.iter().map(|row| row_key(row)).collect(alloc)
}
