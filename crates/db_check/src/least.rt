//! The least name that shows a difference, kept while names are walked. So no list of findings is made, and none is
//! sorted.
ghost use Rattle.std.specs.Prelude.{◌≡◌, ◌++◌, [], ◌∷◌, List, Option, Some, IfOk};
ghost use Rattle.terrain_base.specs.declared.name.Key as key;
ghost use Rattle.terrain_base.specs.Step.{Files};
ghost use Rattle.database.specs.declared.verdict.Difference as difference;
ghost use Rattle.database.specs.Answer.{HasCause, OnlyStops};
ghost use Rattle.database.specs.State.{State, file_of};
ghost use Rattle.database.specs.Verdict.{difference_at, IsLeast};

use database::{Difference, EngineAnswer, Finding};
use terrain_base::{Name, Store};

// What is kept when one more name is looked at.
pub(crate) fn keep(best: Option<Finding>, name: Name, kind: Option<Difference>) -> Option<Finding>
    ensures { (at : key.Key → Option difference.Difference) (names : List key.Key) → IsLeast at names best
        → at name ≡ kind → IsLeast at (names ++ name ∷ []) result }
{
    match kind {
        None => best,
        Some(kind) => match best {
            None => Some(Finding { name, kind }),
            Some(found) => {
                if name < found.name {
                    Some(Finding { name, kind })
                } else {
                    Some(found)
                }
            }
        },
    }
}

// How what is held under a name differs from the bytes that are wanted there.
fn compare<S: Store>(
    store: &mut S,
    name: &Name,
    wanted: &[u8],
) -> Result<Option<Difference>, EngineAnswer>
    ensures compared { IfOk result (λ kind. (files : Files) (s : State) → S.holds store.old ≡ Some files
        → file_of s name.now ≡ Some wanted.now → difference_at s files name.now ≡ kind) }
    ensures stop { OnlyStops result }
    ensures same { S.holds store.new ≡ S.holds store.old }
    ensures quiet { S.log store.new ≡ S.log store.old }
    ensures cause { HasCause (S.faults store.old) (S.faults store.new) result }
{
    match store.get(name)? {
        None => Ok(Some(Difference::Missing)),
        Some(held) => {
            if held.as_slice() == wanted {
                Ok(None)
            } else {
                Ok(Some(Difference::Differs))
            }
        }
    }
}

// What is kept when the file of one more name is compared.
pub(crate) fn keep_compared<S: Store>(
    store: &mut S,
    best: Option<Finding>,
    name: Name,
    wanted: &[u8],
) -> Result<Option<Finding>, EngineAnswer>
    ensures least { IfOk result (λ least. (files : Files) (s : State) (names : List key.Key)
        → S.holds store.old ≡ Some files → file_of s name ≡ Some wanted.now
        → IsLeast (difference_at s files) names best
        → IsLeast (difference_at s files) (names ++ name ∷ []) least) }
    ensures stop { OnlyStops result }
    ensures same { S.holds store.new ≡ S.holds store.old }
    ensures quiet { S.log store.new ≡ S.log store.old }
    ensures cause { HasCause (S.faults store.old) (S.faults store.new) result }
{
    let kind = compare(store, &name, wanted)?;
    Ok(keep(best, name, kind))
}
