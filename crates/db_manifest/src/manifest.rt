// A manifest.
ghost use Rattle.std.specs.Prelude.{◌≡◌, ◌≤◌, length, IsTrue};
ghost use Rattle.std.specs.List.Sorted.{IsStrictlySortedBy};
ghost use Rattle.terrain_base.specs.CellKey.{key_cmp};
ghost use Rattle.db_manifest.specs.Manifest.{Contents, IsManifest, fits_rows};

use manifest_lines::State;
use std::marker::Model;
use terrain_base::{CellKey, Params};

/// What is under way in a database.
pub type ManifestState = State<CellKey>;

/// What a database says of itself: its params, what is under way and the keys of its cells, ascending. It is seen as
/// these three, and is a good manifest.
#[derive(Debug, Drop)]
pub struct Manifest {
    pub(crate) params: Params,
    pub(crate) state: ManifestState,
    pub(crate) rows: Vec<CellKey>,
}

impl Model for Manifest {
    ghost use Rattle.db_manifest.specs.Manifest.{Contents, IsManifest, contents_of};

    ghost Value = { Contents };

    ghost view = { λ m. contents_of m.params m.state m.rows.items };

    ghost invariant = { λ m. IsManifest m.params m.state m.rows.items };
}

impl Manifest {
    /// The manifest with these parts, of this program's version. The rows ascend and are at most 4096, a key that is
    /// put is among them, and one that is dropped is not.
    pub fn of(params: Params, state: ManifestState, rows: Vec<CellKey>) -> Manifest
        requires ascend { IsStrictlySortedBy key_cmp rows.items }
        requires few { length rows.items ≤ 4096 }
        requires fits { IsTrue (fits_rows state rows.items) }
        ensures params { result.params ≡ params }
        ensures state { result.state ≡ state }
        ensures rows { result.rows ≡ rows.items }
    {
        Manifest {
            params,
            state,
            rows,
        }
    }

    /// The version of its grammar, 3.
    pub fn version(&self) -> u32
        ensures { result ≡ 3 }
    {
        3
    }

    /// The params of the database.
    pub fn params(&self) -> Params
        ensures { result ≡ self.now.params }
    {
        self.params
    }

    /// What is under way.
    pub fn state(&self) -> ManifestState
        ensures { result ≡ self.now.state }
    {
        self.state
    }

    /// The keys that have a cell, ascending.
    pub fn rows(&self) -> &[CellKey]
        ensures value { result.now ≡ self.now.rows }
        ensures good { IsManifest self.now.params self.now.state self.now.rows }
    {
        &self.rows
    }
}
