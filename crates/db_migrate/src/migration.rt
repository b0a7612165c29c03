//! Bringing a database to the present version.
ghost use Rattle.std.specs.Prelude.{◌≡◌, ◌≤◌, ◌+◌, Some, IfOk, IfErr, true};
ghost use Rattle.terrain_base.specs.Run.{Ran};
ghost use Rattle.terrain_base.specs.Step.{Files};
ghost use Rattle.manifest_lines.specs.declared.version.Version.{Version};
ghost use Rattle.database.specs.Answer.{HasCause, OnlyStops};
ghost use Rattle.database.specs.Commands.{existing};
ghost use Rattle.database.specs.State.{State};
ghost use Rattle.db_files.specs.Serving.{count_existing};
ghost use Rattle.db_migrate.specs.Migrated.{Brings, IsBrought, IsLeft, IsRefusal};
ghost use Rattle.db_migrate.specs.Moves.{migrating};
ghost use Rattle.db_old_reading.specs.OldOpening.{OldOpening, MigratesAs};
ghost use Rattle.db_old_reading.specs.OldReads.{OldMark, OldReads};

use crate::moving::move_cells;
use database::EngineAnswer;
use db_engine::Opened;
use db_files::restart;
use db_old_reading::read_old;
use std::alloc::Global;
use terrain_base::{Store, Work};

/// Brings a database of version 1 or 2 to the present version, and opens it. Each cell of version 1 is put under the
/// name of its square and its file's own level, and of version 2 the one that is on the stage, if any; then the
/// manifest of the present version is put, and the database is made anew. Refused exactly where the files open as no
/// state of an old version: K13 where the manifest is of the present one; else K5 where none is held (line 0) or it is
/// refused for a line by the grammar of its version; else, for the first bad row, K6 where its file is not held, K7
/// where it is refused, K8 where it is of another square, and in version 2 K9 where it is of another level. Then
/// nothing is changed.
/// A stop by the store or for want of memory leaves files that read as the state still by the old version, or stand for
/// it by the present one: so the call is made again, or the database is settled.
pub fn migrate<S: Store>(
    alloc: Global,
    store: &mut S,
    work: &mut Work,
) -> Result<Opened, EngineAnswer>
    ensures live { IfOk result (λ o. o.live ≡ true) }
    ensures opened { IfOk result (λ o. (files : Files) → S.holds store.old ≡ Some files
        → IsBrought files (S.holds store.new) o) }
    ensures refused { IfErr result (λ answer. (files : Files) → S.holds store.old ≡ Some files
        → IsRefusal answer files (S.holds store.new) (S.log store.old) (S.log store.new) work.old work.new) }
    ensures left { (files : Files) (opening : OldOpening) → S.holds store.old ≡ Some files → MigratesAs files opening
        → IsLeft opening files (S.holds store.new) (S.log store.old) (S.log store.new) work.old work.new result }
    ensures stop { (files : Files) (v : Version) (s : State) (mark : OldMark)
        → S.holds store.old ≡ Some files → OldReads files v s mark → OnlyStops result }
    ensures ran { (files : Files) (v : Version) (s : State) (mark : OldMark)
        → S.holds store.old ≡ Some files → OldReads files v s mark → Ran (migrating v mark files s)
        (S.holds store.old) (S.log store.old) (S.holds store.new) (S.log store.new) result }
    ensures brings { (files : Files) (v : Version) (s : State) (mark : OldMark)
        → S.holds store.old ≡ Some files → OldReads files v s mark → Brings v s (S.holds store.new) result }
    ensures few { (files : Files) (v : Version) (s : State) (mark : OldMark)
        → S.holds store.old ≡ Some files → OldReads files v s mark
        → work.new ≤ work.old + count_existing s (existing s) }
    ensures more { work.old ≤ work.new }
    ensures cause { HasCause (S.faults store.old) (S.faults store.new) result }
{
    let old = read_old(alloc, store)?;
    move_cells(store, old.version, old.staged, &old.rows)?;
    restart(alloc, store, &old.rows, &old.params, work)?;
    Ok(Opened::of(old.params, old.rows))
}
