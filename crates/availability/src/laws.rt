//! What the definitions say of one another. Each function does nothing: its contract is a law.
ghost use Rattle.availability.specs.Laws.{TestLaw, CapLaw, NearLaw, AddedLaw, ReplacedLaw, NumbersLaw, NoTileLaw};
ghost use Rattle.availability.specs.Laws.{RunsLaw, OneListLaw, ReachedLaw, DeepestLaw, TellsLaw};
ghost use Rattle.availability.specs.Laws.{ListedLaw, CountLaw};

/// The test of existence holds exactly where the tile exists.
pub fn existence_by_test()
    ensures { TestLaw }
{}

/// A tile above the cap does not exist.
pub fn nothing_above_the_cap()
    ensures { CapLaw }
{}

/// Whether a tile exists depends on the cells alone whose square touches it: two lists in which these are the
/// same agree, and one that does not touch may be put in, taken out or replaced by another.
pub fn existence_is_local()
    ensures same { NearLaw }
    ensures added { AddedLaw }
    ensures replaced { ReplacedLaw }
{}

/// Existence by level, row and column is that of the tile with these numbers, and there is none without a tile.
pub fn existence_by_numbers()
    ensures tile { NumbersLaw }
    ensures none { NoTileLaw }
{}

/// There is one list of maximal runs of a level.
pub fn one_list_of_runs()
    ensures found { RunsLaw }
    ensures only { OneListLaw }
{}

/// `maxzoom` of the layer text is the greatest level with an existing tile.
pub fn deepest_level_exists()
    ensures reached { ReachedLaw }
    ensures greatest { DeepestLaw }
{}

/// Where the same tiles exist, the layer texts are equal.
pub fn layer_tells_the_tiles()
    ensures { TellsLaw }
{}

/// There is a list that has each existing tile once and no other, and the number of tiles is the length of any
/// such list.
pub fn count_is_a_length()
    ensures found { ListedLaw }
    ensures length { CountLaw }
{}
