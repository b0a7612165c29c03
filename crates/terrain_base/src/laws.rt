//! What the definitions that contracts cite come to, in the words of the subject. Each law is what a function
//! with an empty body ensures.
ghost use Rattle.std.specs.Prelude.{◌≡◌};
ghost use Rattle.terrain_base.specs.declared.square.Square.{Square};
ghost use Rattle.terrain_base.specs.declared.tile.TileId.{TileId};
ghost use Rattle.terrain_base.specs.declared.cell_key.CellKey.{CellKey};
ghost use Rattle.terrain_base.specs.CellKey.{key_cmp};
ghost use Rattle.terrain_base.specs.SquareOrder.{square_cmp};
ghost use Rattle.terrain_base.specs.TileOrder.{tile_cmp};
ghost use Rattle.terrain_base.specs.NameLaws.{KeysDiffer, RowsAreSpelt, SquaresDiffer, NamesDiffer};
ghost use Rattle.terrain_base.specs.StoreLaws.{PutsOne, DeletesOne, AbsentStays, NamesAscend};
ghost use Rattle.terrain_base.specs.StoreLaws.{StepsAreLogged, Overwrites, StopsLeaveOthers, StopsLogAFront};

/// Squares are ordered by latitude, then longitude.
pub fn squares_ascend()
    ensures { (a b : Square) → ⟦<crate::Square as Ord>⟧.cmp a b ≡ square_cmp a b }
{}

/// Keys are ordered by square, then level 2, 1, 0.
pub fn keys_ascend()
    ensures { (a b : CellKey) → ⟦<crate::CellKey as Ord>⟧.cmp a b ≡ key_cmp a b }
{}

/// Different keys stand at different places in the order.
pub fn keys_differ()
    ensures { KeysDiffer }
{}

/// Tiles are ordered by level, then row, then column.
pub fn tiles_ascend()
    ensures { (a b : TileId) → ⟦<crate::TileId as Ord>⟧.cmp a b ≡ tile_cmp a b }
{}

/// Different squares have different texts.
pub fn squares_differ()
    ensures { SquaresDiffer }
{}

/// A key's text in a row is its square's text, a blank and its level's number in decimal.
pub fn rows_are_spelt()
    ensures { RowsAreSpelt }
{}

/// Different names have different texts.
pub fn names_differ()
    ensures { NamesDiffer }
{}

/// After a put the name holds the bytes, and every other name what it held.
pub fn puts_one()
    ensures { PutsOne }
{}

/// After a delete the name is not held, and every other name holds what it held.
pub fn deletes_one()
    ensures { DeletesOne }
{}

/// A delete of a name that is not held changes nothing held.
pub fn absent_stays()
    ensures { AbsentStays }
{}

/// The held names rise by their bytes.
pub fn names_ascend()
    ensures { NamesAscend }
{}

/// Steps add their changes to the log, in their order.
pub fn steps_are_logged()
    ensures { StepsAreLogged }
{}

/// Names that are overwritten hold what is wanted there, and every other name what it held.
pub fn overwrites()
    ensures { Overwrites }
{}

/// A stop while names are overwritten leaves every other name as it was.
pub fn stops_leave_others()
    ensures { StopsLeaveOthers }
{}

/// A stop leaves a log that grew by the changes of some first steps.
pub fn stops_log_a_front()
    ensures { StopsLogAFront }
{}
