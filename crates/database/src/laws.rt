//! What states, files and changes are held to. Each function does nothing: its contract is a law.
ghost use Rattle.database.specs.Laws.{TilesAreLocal, CommandsStand, CommandsOverwrite};
ghost use Rattle.database.specs.Laws.{SettlingStands, SettlingReads, RebuildingsStand, FilesOpenOnce};

/// Where two states agree on all keys but those of a square, a tile that does not touch it exists in both or in
/// neither, with equal files.
pub fn tiles_are_local()
    ensures { TilesAreLocal }
{}

/// Each front of a command's changes leaves files that stand for the old state or for the new one, and all of them
/// leave the new one's files.
pub fn commands_stand()
    ensures { CommandsStand }
{}

/// After a command the names that change have the files of the new state, and every other what it had.
pub fn commands_overwrite()
    ensures { CommandsOverwrite }
{}

/// Each front of settling leaves files that stand for the state, and all of it leaves the state's files.
pub fn settling_stands()
    ensures { SettlingStands }
{}

/// Over files that only read as a state each front of settling leaves files that read as it, and all of it the settled
/// ones.
pub fn settling_reads()
    ensures { SettlingReads }
{}

/// Each front of a rebuilding is nothing or leaves files that stand for the state, and all of it leaves its files.
pub fn rebuildings_stand()
    ensures { RebuildingsStand }
{}

/// Files open in at most one way.
pub fn files_open_once()
    ensures { FilesOpenOnce }
{}
