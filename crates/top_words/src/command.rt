// Commands, as words ask for them.

use terrain_base::{CellKey, Params, TileId};
use tile_query::Question;

/// Adding, replacing or removing a cell: a command, and a line of a script.
#[derive(Clone, Copy, Debug)]
pub enum Edit<'a> {
    /// Adds the cell of a file.
    Add { file: &'a str },
    /// Puts the cell of a file in the place of that of its square and level.
    Replace { file: &'a str },
    /// Takes a cell away.
    Remove { key: CellKey },
}

/// What is asked of a database and changes nothing of it.
#[derive(Clone, Copy, Debug)]
pub enum Query {
    /// The params and the cells.
    List,
    /// A stored tile's numbers and its note.
    Inspect { tile: TileId },
    /// The squares with cells that a tile touches.
    Deps { tile: TileId },
    /// A tile in the form heightmap-1.0.
    Heightmap { tile: TileId },
    /// A question about the surface of a stored tile.
    Surface { tile: TileId, question: Question },
}

/// A command over a database, which is settled first.
#[derive(Clone, Copy, Debug)]
pub enum DatabaseCommand<'a> {
    Ask(Query),
    Change(Edit<'a>),
    /// Does the edits of a script in order.
    Apply { script: &'a str },
    /// Makes every file anew.
    Rebuild,
    /// Compares every file with one that is made anew.
    Check,
}

/// A command.
#[derive(Clone, Copy, Debug)]
pub enum Command<'a> {
    /// Makes a database without cells.
    Init {
        params: Params,
    },
    Database(DatabaseCommand<'a>),
    /// Prints a cell's numbers.
    Cell {
        file: &'a str,
    },
    /// Says whether the tile of a file covers its square exactly once.
    Audit {
        file: &'a str,
    },
    /// Brings a database of an older version to this one.
    Migrate,
    /// Gives a raster in the form HGT as a cell.
    Convert {
        file: &'a str,
    },
    /// Runs generated commands over a store in memory and prints a summary.
    Trial {
        /// How many commands, 0 to 64.
        count: u8,
        /// The number that they are generated from.
        number: u64,
    },
}
