// A cell that is read from a store.
ghost use Rattle.std.specs.Prelude.{◌≡◌, IfOk, IfErr, Some};
ghost use Rattle.terrain_base.specs.declared.name.Key.TheVariants.{Cell as CellName};
ghost use Rattle.dted_cell.specs.Trouble.{IsCellAt};
ghost use Rattle.cell_mosaic.specs.Source.{FaultHasCause};
ghost use Rattle.cell_cache.specs.Fetched.{IsFetched, IsTroubleAt, IsFaultAt, told_under};

use cell_mosaic::SourceFault;
use dted_cell::{CellBytes, CellTrouble};
use terrain_base::{CellKey, Name, Store};

/// The bytes that are held under the name of the key's cell, as a cell of this key, or what is wrong with them.
#[tactic(auto, using(crate::proofs::Fetching::of_key, crate::proofs::Fetching::of_level))]
fn as_cell(key: CellKey, name: Name, bytes: Vec<u8>) -> Result<CellBytes, CellTrouble>
    requires { name ≡ CellName key }
    ensures cell { IfOk result (IsCellAt key) }
    ensures same { IfOk result (λ cell. cell ≡ bytes.items) }
    ensures trouble { IfErr result (IsTroubleAt key (Some (Some bytes.items))) }
{
    let cell = match CellBytes::check(bytes) {
        Ok(cell) => cell,
        Err(refused) => {
            return Err(CellTrouble::Bad {
                name,
                refusal: refused.refusal,
            });
        }
    };
    let view = cell.view();
    let square = view.square();
    let found = view.level();
    if square != key.square {
        return Err(CellTrouble::Elsewhere {
            name,
            found: square,
        });
    }
    if !key.is(&CellKey {
        square,
        level: found,
    }) {
        return Err(CellTrouble::Changed {
            name,
            opened: key.level,
            found,
        });
    }
    Ok(cell)
}

/// The cell of a key, read from the store.
pub(crate) fn fetched<S: Store>(store: &mut S, key: CellKey) -> Result<CellBytes, SourceFault>
    ensures fetched { IfOk result (IsFetched key (S.holds store.old)) }
    ensures trouble { IfErr result (IsFaultAt key (told_under (S.holds store.old) key)) }
    ensures cause { FaultHasCause (S.faults store.old) (S.faults store.new) result }
    ensures same { S.holds store.new ≡ S.holds store.old }
    ensures quiet { S.log store.new ≡ S.log store.old }
{
    let name = Name::cell(key);
    let Some(bytes) = store.get(&name)? else {
        return Err(SourceFault::Cell(CellTrouble::Lost { name }));
    };
    match as_cell(key, name, bytes) {
        Ok(cell) => Ok(cell),
        Err(trouble) => Err(SourceFault::Cell(trouble)),
    }
}
