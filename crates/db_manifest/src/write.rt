// The writer of manifests.
ghost use Rattle.std.specs.Prelude.{◌≡◌, ◌++◌, ◌∷◌, [], IfOk};
ghost use Rattle.manifest_lines.specs.declared.version.Version.TheVariants.{Three};
ghost use Rattle.manifest_lines.specs.Line.{ended};
ghost use Rattle.manifest_lines.specs.KeyRow.{key_grammar};
ghost use Rattle.manifest_lines.specs.Manifest.{cap_line, fill_line, state_line, cells_line, head_lines};
ghost use Rattle.manifest_lines.specs.Version.{version_line};
ghost use Rattle.db_manifest.specs.Manifest.{manifest_text};

use crate::{Manifest, ManifestState};
use manifest_lines::State;
use std::alloc::Global;
use terrain_base::{NoMemory, Params};

// The line of a state, with its line feed.
fn state_text(alloc: Global, state: ManifestState) -> Result<Vec<u8>, NoMemory>
    ensures { IfOk result (λ text. text.items ≡ ended (state_line key_grammar state ∷ [])) }
{
    let mut text = Vec::new(alloc);
    match state {
        State::Closed => text.extend_from_slice(b"state closed")?,
        State::Put { key } => {
            text.extend_from_slice(b"state put ")?;
            text.extend_from_slice(&key.text())?;
        }
        State::Drop { key } => {
            text.extend_from_slice(b"state drop ")?;
            text.extend_from_slice(&key.text())?;
        }
        State::Rebuild => text.extend_from_slice(b"state rebuild")?,
    }
    text.push(b'\n')?;
    Ok(text)
}

// The lines before the state's.
fn first_text(alloc: Global, params: Params) -> Result<Vec<u8>, NoMemory>
    ensures { IfOk result (λ text. text.items
        ≡ ended (version_line Three ∷ cap_line params.cap ∷ fill_line params.fill ∷ [])) }
{
    let cap = params.cap;
    let fill = params.fill;
    let text = format!(in alloc; "terrain-db 3\ncap {cap}\nfill {fill}\n")?;
    Ok(text.into_bytes())
}

// The line of the number of rows.
fn count_text(alloc: Global, count: usize) -> Result<Vec<u8>, NoMemory>
    ensures { IfOk result (λ text. text.items ≡ ended (cells_line count ∷ [])) }
{
    let text = format!(in alloc; "cells {count}\n")?;
    Ok(text.into_bytes())
}

// The lines before so many rows.
fn head_text(
    alloc: Global,
    params: Params,
    state: ManifestState,
    count: usize,
) -> Result<Vec<u8>, NoMemory>
    ensures { IfOk result (λ text. text.items ≡ ended (head_lines key_grammar Three params state count)) }
{
    let mut text = first_text(alloc, params)?;
    text.extend_from_slice(&state_text(alloc, state)?)?;
    text.extend_from_slice(&count_text(alloc, count)?)?;
    Ok(text)
}

impl Manifest {
    /// The manifest's text.
    pub fn write(&self, alloc: Global) -> Result<Vec<u8>, NoMemory>
        ensures { IfOk result (λ text. text.items ≡ manifest_text self.now.params self.now.state self.now.rows) }
    {
        let rows = self.rows();
        let mut text = head_text(alloc, self.params(), self.state(), rows.len())?;
        for row in rows {
            text.extend_from_slice(&row.text())?;
            text.push(b'\n')?;
        }
        Ok(text)
    }
}
