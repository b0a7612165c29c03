// The manifest of an old database.
ghost use Rattle.std.specs.Prelude.{◌≡◌, ◌<◌, Some, IfOk, IfErr};
ghost use Rattle.terrain_base.specs.Step.{Files};
ghost use Rattle.manifest_lines.specs.Version.{version_number};
ghost use Rattle.old_manifest.specs.Manifest.{IsManifest};
ghost use Rattle.database.specs.Answer.{HasCause};
ghost use Rattle.db_old_reading.specs.Told.{IsOldText, IsManifestOf, IsNoManifest, IsRefusedAs};

use database::EngineAnswer;
use manifest_lines::{ManifestRefusal, Version, manifest_version};
use old_manifest::{OldManifest, grammar_of};
use std::alloc::Global;
use terrain_base::{Name, Store};

// An old manifest with its version.
#[derive(Drop)]
pub(crate) struct Dated {
    pub(crate) version: Version,
    pub(crate) manifest: OldManifest,
}

// The old manifest in a file's bytes. One of the present version is told as such, whatever else is wrong with it.
fn manifest_in(alloc: Global, bytes: &[u8]) -> Result<Dated, EngineAnswer>
    ensures ok { IfOk result (λ dated. IsOldText bytes.now dated.version dated.manifest) }
    ensures old { IfOk result (λ dated. version_number dated.version < 3) }
    ensures refused { IfErr result (IsRefusedAs bytes.now) }
{
    if let Some(version) = manifest_version(bytes)
        && version == 3
    {
        return Err(EngineAnswer::NotOld { version });
    }
    match OldManifest::read(alloc, bytes) {
        Ok(manifest) => Ok(Dated {
            version: grammar_of(bytes),
            manifest,
        }),
        Err(ManifestRefusal::NotADatabase { line }) => Err(EngineAnswer::NotADatabase { line }),
        Err(ManifestRefusal::NoMemory) => Err(EngineAnswer::NoMemory),
    }
}

// The old manifest that the store holds.
pub(crate) fn read_manifest<S: Store>(alloc: Global, store: &mut S) -> Result<Dated, EngineAnswer>
    ensures ok { IfOk result (λ dated. (files : Files) → S.holds store.old ≡ Some files
        → IsManifestOf files dated.version dated.manifest) }
    ensures good { IfOk result (λ dated. IsManifest dated.version dated.manifest) }
    ensures old { IfOk result (λ dated. version_number dated.version < 3) }
    ensures refused { IfErr result (λ answer. (files : Files) → S.holds store.old ≡ Some files
        → IsNoManifest files answer) }
    ensures same { S.holds store.new ≡ S.holds store.old }
    ensures quiet { S.log store.new ≡ S.log store.old }
    ensures cause { HasCause (S.faults store.old) (S.faults store.new) result }
{
    match store.get(&Name::manifest())? {
        Some(bytes) => manifest_in(alloc, &bytes),
        None => Err(EngineAnswer::NotADatabase { line: 0 }),
    }
}
