// The reader of names.
ghost use Rattle.std.specs.Prelude.{◌≡◌, ◌≢◌, Some, IfSome, IfNone};
ghost use Rattle.terrain_base.specs.declared.name.Key as key;
ghost use Rattle.terrain_base.specs.declared.tile.TileId as tile;
ghost use Rattle.terrain_base.specs.declared.square.Square as square;
ghost use Rattle.terrain_base.specs.declared.level.CellLevel as level;
ghost use Rattle.terrain_base.specs.Name.{name_text, tile_text};
ghost use Rattle.terrain_base.specs.NameParts.{cell_stem, level_ending, stem_of, ending_of};

use crate::{CellKey, CellLevel, Name, Square, TileId};
use std::str;

// The tile whose numbers the text gives. Where they are no tile's, maybe a tile all the same.
fn guess_tile(text: &str) -> Option<TileId>
    ensures { (wanted : tile.TileId) → text.now ≡ tile_text wanted → result ≡ Some wanted }
{
    let (z, rest) = text.split_once('/')?;
    let (x, y) = rest.split_once('/')?;
    TileId::of(z.parse().ok()?, x.parse().ok()?, y.parse().ok()?)
}

// The square of the cell whose name begins so. `None` exactly where it is no cell's.
fn square_of_stem(stem: &str) -> Option<Square>
    ensures some { IfSome result (λ square. stem.now ≡ cell_stem square) }
    ensures none { IfNone result ((square : square.Square) → stem.now ≢ cell_stem square) }
{
    Square::read(stem.as_bytes().strip_prefix(b"cells/")?)
}

// The level of the cell whose name ends so. `None` exactly where it is no cell's.
fn level_of_ending(ending: &str) -> Option<CellLevel>
    ensures some { IfSome result (λ level. ending.now ≡ level_ending level) }
    ensures none { IfNone result ((level : level.CellLevel) → ending.now ≢ level_ending level) }
{
    match ending {
        "0.dt" => Some(CellLevel::Zero),
        "1.dt" => Some(CellLevel::One),
        "2.dt" => Some(CellLevel::Two),
        _ => None,
    }
}

// The name with these parts round its first dot. Where they are no name's, maybe a name all the same.
fn guess_parts(stem: &str, ending: &str) -> Option<Name>
    ensures { (wanted : key.Key) → stem.now ≡ stem_of wanted → ending.now ≡ ending_of wanted → result ≡ Some wanted }
{
    match (stem, ending) {
        ("manifest", "txt") => Some(Name::manifest()),
        ("layer", "json") => Some(Name::layer()),
        ("stage", "dt") => Some(Name::stage()),
        (_, "dt") => Some(Name::old_cell(square_of_stem(stem)?)),
        (_, "terrain") => Some(Name::terrain(guess_tile(stem)?)),
        (_, "txt") => Some(Name::note(guess_tile(stem)?)),
        _ => {
            let square = square_of_stem(stem)?;
            let level = level_of_ending(ending)?;
            Some(Name::cell(CellKey { square, level }))
        }
    }
}

// The name with these bytes. Where they are no name's, maybe a name all the same.
fn guess(bytes: &[u8]) -> Option<Name>
    ensures { (wanted : key.Key) → bytes.now ≡ name_text wanted → result ≡ Some wanted }
{
    let (stem, ending) = str::from_utf8(bytes).ok()?.split_once('.')?;
    guess_parts(stem, ending)
}

impl Name {
    /// The name that has these bytes. `None` exactly where they are no name's.
    pub fn read(bytes: &[u8]) -> Option<Name>
        ensures some { IfSome result (λ name. bytes.now ≡ name_text name) }
        ensures none { IfNone result ((name : key.Key) → bytes.now ≢ name_text name) }
    {
        let name = guess(bytes)?;
        if name.bytes() == bytes {
            Some(name)
        } else {
            None
        }
    }
}
