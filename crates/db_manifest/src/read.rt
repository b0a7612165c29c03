// The reader of manifests.
ghost use Rattle.std.specs.Prelude.{IfOk, IfErr};
ghost use Rattle.db_manifest.specs.Reading.{IsTextOf, IsRefusedBy};

use crate::Manifest;
use manifest_lines::{ManifestRefusal, Parts, Version, read_parts};
use std::alloc::Global;
use terrain_base::CellKey;

impl Manifest {
    /// The manifest whose text the bytes are. Refused, but for want of memory, exactly where they are the text
    /// of none, and then with the line for which they are refused.
    pub fn read(alloc: Global, bytes: &[u8]) -> Result<Manifest, ManifestRefusal>
        ensures ok { IfOk result (λ manifest. IsTextOf bytes.now manifest.params manifest.state manifest.rows) }
        ensures refused { IfErr result (IsRefusedBy bytes.now) }
    {
        let Parts {
            params,
            state,
            rows,
        } = read_parts::<CellKey>(alloc, Version::Three, bytes)?;
        Ok(Manifest {
            params,
            state,
            rows,
        })
    }
}
