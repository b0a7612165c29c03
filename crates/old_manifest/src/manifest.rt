// An old manifest.
ghost use Rattle.std.specs.Prelude.{◌≡◌, IfOk, IfErr};
ghost use Rattle.old_manifest.specs.Manifest.{staged_of, version_of, IsTextOf, IsRefusedBy};

use crate::OldRow;
use manifest_lines::{ManifestRefusal, Parts, State, Version, read_parts};
use std::alloc::Global;
use std::marker::Model;
use terrain_base::Params;

/// What a manifest of version 1 or 2 says: params, what is under way and rows, ascending. It is seen as these three.
#[derive(Drop)]
pub struct OldManifest {
    parts: Parts<OldRow>,
}

impl Model for OldManifest {
    ghost use Rattle.manifest_lines.specs.Reading.{contents_of};
    ghost use Rattle.old_manifest.specs.Manifest.{Contents};

    ghost Value = { Contents };

    ghost view = { λ m. contents_of m.parts };
}

/// The version by whose grammar bytes are read: 2 where their first line is that of version 2, else 1.
pub fn grammar_of(bytes: &[u8]) -> Version
    ensures { result ≡ version_of bytes.now }
{
    if bytes.starts_with(b"terrain-db 2\n") {
        Version::Two
    } else {
        Version::One
    }
}

impl OldManifest {
    /// The manifest whose text the bytes are, by the grammar of version 2 where their first line is that of version 2,
    /// else by that of version 1. Refused, but for want of memory, exactly where they are the text of none by that
    /// grammar, and then with the line for which they are refused.
    pub fn read(alloc: Global, bytes: &[u8]) -> Result<OldManifest, ManifestRefusal>
        ensures ok { IfOk result (IsTextOf bytes.now) }
        ensures refused { IfErr result (IsRefusedBy bytes.now) }
    {
        let parts = read_parts::<OldRow>(alloc, grammar_of(bytes), bytes)?;
        Ok(OldManifest { parts })
    }

    /// The params of the database.
    pub fn params(&self) -> Params
        ensures { result ≡ self.now.params }
    {
        self.parts.params
    }

    /// The row that is put, where one is.
    pub fn staged(&self) -> Option<OldRow>
        ensures { result ≡ staged_of self.now.state }
    {
        match self.parts.state {
            State::Put { key } => Some(key),
            _ => None,
        }
    }

    /// The rows, ascending.
    pub fn rows(&self) -> &[OldRow]
        ensures { result.now ≡ self.now.rows }
    {
        &self.parts.rows
    }
}
