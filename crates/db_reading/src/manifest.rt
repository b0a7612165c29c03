// The manifest of a database.
ghost use Rattle.std.specs.Prelude.{◌≡◌, Some, IfOk, IfErr};
ghost use Rattle.terrain_base.specs.Step.{Files};
ghost use Rattle.db_manifest.specs.Reading.{IsTextOf};
ghost use Rattle.database.specs.Answer.{HasCause};
ghost use Rattle.db_reading.specs.ReadManifest.{IsManifestOf, IsNoManifest, IsRefusedAs};

use database::EngineAnswer;
use db_manifest::{Manifest, ManifestRefusal, manifest_version};
use std::alloc::Global;
use terrain_base::{Name, Store};

// The manifest in a file's bytes. One of an old version is told as such, whatever else is wrong with it.
fn manifest_in(alloc: Global, bytes: &[u8]) -> Result<Manifest, EngineAnswer>
    ensures ok { IfOk result (λ manifest. IsTextOf bytes.now manifest.params manifest.state manifest.rows) }
    ensures refused { IfErr result (IsRefusedAs bytes.now) }
{
    if let Some(version) = manifest_version(bytes)
        && version < 3
    {
        return Err(EngineAnswer::OldVersion { version });
    }
    match Manifest::read(alloc, bytes) {
        Ok(manifest) => Ok(manifest),
        Err(ManifestRefusal::NotADatabase { line }) => Err(EngineAnswer::NotADatabase { line }),
        Err(ManifestRefusal::NoMemory) => Err(EngineAnswer::NoMemory),
    }
}

// The manifest that the store holds.
pub(crate) fn read_manifest<S: Store>(
    alloc: Global,
    store: &mut S,
) -> Result<Manifest, EngineAnswer>
    ensures ok { IfOk result (λ manifest. (files : Files) → S.holds store.old ≡ Some files
        → IsManifestOf files manifest.params manifest.state manifest.rows) }
    ensures refused { IfErr result (λ answer. (files : Files) → S.holds store.old ≡ Some files
        → IsNoManifest files answer) }
    ensures same { S.holds store.new ≡ S.holds store.old }
    ensures quiet { S.log store.new ≡ S.log store.old }
    ensures cause { HasCause (S.faults store.old) (S.faults store.new) result }
{
    match store.get(&Name::manifest())? {
        Some(bytes) => manifest_in(alloc, &bytes),
        None => Err(EngineAnswer::NotADatabase { line: 0 }),
    }
}
