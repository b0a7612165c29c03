// The extensions of a tile, read where they stand.
ghost use Rattle.std.specs.Prelude.{◌≡◌, ◌+◌, ◌<◌, ◌≤◌, ◌^◌, length, slice_index, slice_range};
ghost use Rattle.std.specs.Iterator.{YieldsFirstBy, item_count};
ghost use Rattle.mesh_codec.specs.Good.{IsTile};
ghost use Rattle.mesh_codec.specs.Tile.{extension_list};
ghost use Rattle.mesh_codec.specs.Seen.{seen};

use crate::extension::end_of;
use crate::layout::extensions_start;
use std::marker::Model;

/// An extension of a tile, where it lies.
#[derive(Clone, Copy)]
pub struct Extension<'a> {
    /// 1 for vertex normals, 2 for a water mask, 4 for metadata; others are not defined.
    pub id: u8,
    pub bytes: &'a [u8],
}

/// The extension from an offset up to another.
fn extension_of(bytes: &[u8], at: usize, end: usize) -> Extension<'_>
    requires ordered { at + 5 ≤ end }
    requires within { end ≤ length bytes.now }
    ensures { seen result ≡ record { id = slice_index bytes.now at; bytes = slice_range bytes.now (at + 5) end } }
{
    Extension {
        id: bytes[at],
        bytes: &bytes[at + 5..end],
    }
}

/// The extensions of a tile, read where they stand. It is seen as the list of those that are left.
#[derive(Drop)]
pub struct Extensions<'a> {
    bytes: &'a [u8],
    at: usize,
}

impl<'a> Model for Extensions<'a> {
    ghost use Rattle.std.specs.Prelude.{List};
    ghost use Rattle.mesh_codec.specs.Extension.{ExtensionData, extensions_from};
    ghost use Rattle.mesh_codec.specs.Good.{AreExtensions};

    ghost Value = { List ExtensionData };

    ghost view = { λ s. extensions_from s.bytes.now s.at };

    ghost invariant = { λ s. AreExtensions s.bytes.now s.at };
}

impl<'a> Extensions<'a> {
    /// The extensions of a tile.
    pub(crate) fn of(bytes: &'a [u8]) -> Extensions<'a>
        requires { IsTile bytes.now }
        ensures list { result ≡ extension_list bytes.now }
        ensures few { length result < 2 ^ 63 }
    {
        Extensions {
            bytes,
            at: extensions_start(bytes),
        }
    }
}

impl<'a> Iterator for Extensions<'a> {
    type Item = Extension<'a>;

    ghost next_gives = { YieldsFirstBy seen (λ rest. rest) };

    ghost remaining = { item_count (λ rest. rest) };

    fn next(&mut self) -> Option<Extension<'a>> {
        let at = self.at;
        if at == self.bytes.len() {
            return None;
        }
        let end = end_of(self.bytes, at).unwrap();
        self.at = end;
        Some(extension_of(self.bytes, at, end))
    }
}
