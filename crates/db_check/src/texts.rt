//! The manifest and the layer.
ghost use Rattle.std.specs.Prelude.{◌≡◌, ◌++◌, [], ◌∷◌, List, Some, IfOk};
ghost use Rattle.terrain_base.specs.declared.name.Key as key;
ghost use Rattle.terrain_base.specs.declared.name.Key.TheVariants.{Manifest, Layer};
ghost use Rattle.terrain_base.specs.Step.{Files};
ghost use Rattle.cell_mosaic.specs.Summaries.{summaries_of};
ghost use Rattle.database.specs.Answer.{HasCause, OnlyStops};
ghost use Rattle.database.specs.Cells.{AreRows};
ghost use Rattle.database.specs.State.{State};
ghost use Rattle.database.specs.Verdict.{difference_at, IsLeast};

use crate::least::keep_compared;
use availability::layer_text;
use database::{EngineAnswer, Finding};
use db_files::manifest_bytes;
use db_manifest::ManifestState;
use std::alloc::Global;
use terrain_base::{Name, Params, Store, Summary};

// What is kept when the closed manifest and the layer are compared.
pub(crate) fn keep_texts<S: Store>(
    alloc: Global,
    store: &mut S,
    rows: &[Summary],
    params: &Params,
    best: Option<Finding>,
) -> Result<Option<Finding>, EngineAnswer>
    requires rows { AreRows rows.now }
    ensures least { IfOk result (λ least. (files : Files) (s : State) (names : List key.Key)
        → S.holds store.old ≡ Some files → params.now ≡ s.params → rows.now ≡ summaries_of s.cells
        → IsLeast (difference_at s files) names best
        → IsLeast (difference_at s files) (names ++ Manifest ∷ Layer ∷ []) least) }
    ensures stop { OnlyStops result }
    ensures same { S.holds store.new ≡ S.holds store.old }
    ensures quiet { S.log store.new ≡ S.log store.old }
    ensures cause { HasCause (S.faults store.old) (S.faults store.new) result }
{
    let manifest = manifest_bytes(alloc, params, ManifestState::Closed, rows)?;
    let first = keep_compared(store, best, Name::manifest(), &manifest)?;
    let layer = layer_text(alloc, rows, params.cap)?;
    keep_compared(store, first, Name::layer(), &layer)
}
