// The manifest of a database's rows.
ghost use Rattle.std.specs.Prelude.{◌≡◌, IfOk, IsTrue};
ghost use Rattle.db_manifest.specs.Manifest.{fits_rows, manifest_text};
ghost use Rattle.database.specs.Cells.{AreRows, row_keys};

use crate::rows::keys_of;
use db_manifest::{Manifest, ManifestState};
use std::alloc::Global;
use terrain_base::{NoMemory, Params, Summary};

/// The text of the manifest with these params, this state and these rows. A key that is put is among the rows, and one
/// that is dropped is not.
pub fn manifest_bytes(
    alloc: Global,
    params: &Params,
    state: ManifestState,
    rows: &[Summary],
) -> Result<Vec<u8>, NoMemory>
    requires rows { AreRows rows.now }
    requires fits { IsTrue (fits_rows state (row_keys rows.now)) }
    ensures { IfOk result (λ text. text.items ≡ manifest_text params.now state (row_keys rows.now)) }
{
    let keys = keys_of(alloc, rows)?;
    let manifest = Manifest::of(*params, state, keys);
    manifest.write(alloc)
}
