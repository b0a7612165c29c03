//! Names that are held and are of no file of the state.
ghost use Rattle.std.specs.Prelude.{◌≡◌, ◌++◌, [], ◌∷◌, List, not, is_some, true};
ghost use Rattle.std.specs.FinMap as map;
ghost use Rattle.std.specs.List.{filter};
ghost use Rattle.terrain_base.specs.declared.name.Key as key;
ghost use Rattle.terrain_base.specs.Step.{Files};
ghost use Rattle.cell_mosaic.specs.Summaries.{summaries_of};
ghost use Rattle.database.specs.State.{State, file_of};
ghost use Rattle.database.specs.Verdict.{difference_at, IsLeast, unwanted_names};

use crate::least::keep;
use availability::exists;
use database::{Difference, Finding};
use db_files::has_row;
use terrain_base::{Key, Name, Params, Summary};

// Whether the name is of no file of the state.
fn is_unwanted(rows: &[Summary], params: &Params, name: &Name) -> bool
    ensures { (s : State) → params.now ≡ s.params → rows.now ≡ summaries_of s.cells
        → result ≡ not (is_some (file_of s name.now)) }
{
    match name.key() {
        Key::Manifest | Key::Layer => false,
        Key::Stage | Key::OldCell(_) => true,
        Key::Cell(key) => !has_row(rows, key),
        Key::Terrain(tile) | Key::Note(tile) => !exists(rows, params.cap, tile),
    }
}

// What is kept when one more name that is held is looked at.
fn keep_extra(
    rows: &[Summary],
    params: &Params,
    best: Option<Finding>,
    name: &Name,
) -> Option<Finding>
    ensures { (files : Files) (s : State) (names : List key.Key) → params.now ≡ s.params
        → rows.now ≡ summaries_of s.cells → is_some (map.get files name.now) ≡ true
        → IsLeast (difference_at s files) names best → IsLeast (difference_at s files)
        (names ++ filter (λ n. not (is_some (file_of s n))) (name.now ∷ [])) result }
{
    if is_unwanted(rows, params, name) {
        keep(best, *name, Some(Difference::Extra))
    } else {
        best
    }
}

// The least of the names that are held and are of no file of the state.
pub(crate) fn least_extra(rows: &[Summary], params: &Params, names: &[Name]) -> Option<Finding>
    ensures { (files : Files) (s : State) → params.now ≡ s.params → rows.now ≡ summaries_of s.cells
        → names.now ≡ map.keys files → IsLeast (difference_at s files) (unwanted_names s files) result }
{
    let mut best = None;
    for name in names {
        best = keep_extra(rows, params, best, name);
    }
    best
}
