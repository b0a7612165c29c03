// The names that a store's files have.
ghost use Rattle.std.specs.Prelude.{◌≡◌, ◌==◌, ◌≤◌, ◌+◌, ◌++◌, length};
ghost use Rattle.std.proofs.Common.{rules};
ghost use Rattle.std.specs.Cmp.{partial_order_from_own_ties};
ghost use Rattle.std.specs.Cmp.Lexicographic.{pointwise};
ghost use Rattle.std.specs.Cmp.Rules.{comparing};
ghost use Rattle.std.specs.Ordering.{on, as_partial_cmp};
ghost use Rattle.terrain_base.specs.Name.{name_text, tile_text, by_text};

use crate::text::Text;
use crate::{CellKey, Square, TileId, level_number};
use std::cmp::Ordering;
use std::marker::Model;

/// What a name names.
#[derive(Clone, Copy, Debug, PartialEq, Eq)]
pub enum Key {
    /// The manifest of the database, `manifest.txt`.
    Manifest,
    /// The description of the layer, `layer.json`.
    Layer,
    /// The bytes of a cell that is being put, `stage.dt`.
    Stage,
    /// A cell, such as `cells/n47e008.2.dt`.
    Cell(CellKey),
    /// A cell of a database of version 1, such as `cells/n47e008.dt`.
    OldCell(Square),
    /// A tile's mesh, `Z/X/Y.terrain`.
    Terrain(TileId),
    /// A tile's note, `Z/X/Y.txt`.
    Note(TileId),
}

/// A name of a file, held in place without memory. Names are ordered by their bytes.
#[derive(Debug)]
pub struct Name {
    key: Key,
    text: Text,
}

impl Model for Name {
    ghost use Rattle.std.specs.Prelude.{◌≡◌};
    ghost use Rattle.std.proofs.Common.{sym};
    ghost use Rattle.terrain_base.specs.declared.name.Key.{Key};

    ghost Value = { Key };

    ghost use Rattle.terrain_base.specs.Name.{name_text};

    ghost view = { λ name. name.key };

    ghost invariant = { λ name. name.text ≡ name_text name.key };

    ghost inverse = { λ key. record { key = key; text = name_text key } };

    ghost inverse_ok = { λ name h. λ i. record { key = name.key; text = sym h i } };
}

impl Clone for Name {
    fn clone(&self) -> Result<Name, std::alloc::AllocError> {
        Ok(*self)
    }
}

impl Copy for Name {}

impl PartialEq for Name {
    ghost eq = { on name_text (pointwise ◌==◌) };

    ghost laws = { Prim.search (comparing, rules) };

    fn eq(&self, other: &Name) -> bool {
        self.bytes() == other.bytes()
    }
}

impl Eq for Name {
    ghost laws = { Prim.search (comparing, rules) };
}

impl PartialOrd for Name {
    ghost partial_cmp = { as_partial_cmp by_text };

    ghost laws = { partial_order_from_own_ties (Prim.search (comparing, rules)) (Prim.search (comparing, rules)) };

    fn partial_cmp(&self, other: &Name) -> Option<Ordering> {
        Some(self.cmp(other))
    }
}

impl Ord for Name {
    ghost cmp = { by_text };

    ghost total = { Prim.search (comparing, rules) };

    ghost matches_partial_cmp = { Prim.search (comparing, rules) };

    ghost matches_eq = { Prim.search (comparing, rules) };

    fn cmp(&self, other: &Name) -> Ordering {
        self.bytes().cmp(other.bytes())
    }
}

// A tile's numbers, as they begin its two names.
#[tactic(auto, using(crate::proofs::TileNumbers::short_z))]
fn text_of_tile(tile: TileId) -> Text
    ensures text { result ≡ tile_text tile }
    ensures short { length result ≤ 14 }
{
    let mut text = Text::new();
    text.push_decimal(u32::from(tile.z));
    text.push(b'/');
    text.push_decimal(tile.x);
    text.push(b'/');
    text.push_decimal(tile.y);
    text
}

impl Name {
    /// The manifest of the database, `manifest.txt`.
    pub fn manifest() -> Name
        ensures { result ≡ Key.Manifest }
    {
        let mut text = Text::new();
        text.push_all(b"manifest.txt");
        Name {
            key: Key::Manifest,
            text,
        }
    }

    /// The description of the layer for a viewer, `layer.json`.
    pub fn layer() -> Name
        ensures { result ≡ Key.Layer }
    {
        let mut text = Text::new();
        text.push_all(b"layer.json");
        Name {
            key: Key::Layer,
            text,
        }
    }

    /// The bytes of a cell that is being put, `stage.dt`.
    pub fn stage() -> Name
        ensures { result ≡ Key.Stage }
    {
        let mut text = Text::new();
        text.push_all(b"stage.dt");
        Name {
            key: Key::Stage,
            text,
        }
    }

    /// The cell of a key, such as `cells/n47e008.2.dt`.
    #[tactic(auto, using(crate::proofs::NameTexts::decimal_level))]
    pub fn cell(key: CellKey) -> Name
        ensures { result ≡ Key.Cell key }
    {
        let mut text = Text::new();
        text.push_all(b"cells/");
        text.push_all(&key.square.text());
        text.push(b'.');
        text.push(b'0' + level_number(key.level));
        text.push_all(b".dt");
        Name {
            key: Key::Cell(key),
            text,
        }
    }

    /// The cell of a square in a database of version 1, such as `cells/n47e008.dt`.
    pub fn old_cell(square: Square) -> Name
        ensures { result ≡ Key.OldCell square }
    {
        let mut text = Text::new();
        text.push_all(b"cells/");
        text.push_all(&square.text());
        text.push_all(b".dt");
        Name {
            key: Key::OldCell(square),
            text,
        }
    }

    /// A tile's mesh, `Z/X/Y.terrain`.
    pub fn terrain(tile: TileId) -> Name
        ensures { result ≡ Key.Terrain tile }
    {
        let mut text = text_of_tile(tile);
        text.push_all(b".terrain");
        Name {
            key: Key::Terrain(tile),
            text,
        }
    }

    /// A tile's note, `Z/X/Y.txt`.
    pub fn note(tile: TileId) -> Name
        ensures { result ≡ Key.Note tile }
    {
        let mut text = text_of_tile(tile);
        text.push_all(b".txt");
        Name {
            key: Key::Note(tile),
            text,
        }
    }

    /// What it names.
    pub fn key(&self) -> Key
        ensures { result ≡ self.now }
    {
        self.key
    }

    /// Its text, of at most 22 bytes.
    pub fn bytes(&self) -> &[u8]
        ensures { result.now ≡ name_text self.now }
    {
        self.text.as_bytes()
    }
}
