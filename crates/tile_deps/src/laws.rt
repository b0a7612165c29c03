//! What the lists that contracts cite are, in the words of the subject. Each function does nothing: its contract is a
//! law.
ghost use Rattle.tile_deps.specs.Laws.{TouchedLaw, TouchedAscendLaw, ExistingLaw, ExistingAscendLaw};
ghost use Rattle.tile_deps.specs.Laws.{ExistingCountLaw, SquaresLaw, SquaresAscendLaw, TouchingLaw, TouchingAscendLaw};

/// The list of the tiles that touch a square has each tile of the levels to the cap that shares a point with it, no
/// other, in order and each once.
pub fn touched_is_whole()
    ensures exact { TouchedLaw }
    ensures ascends { TouchedAscendLaw }
{}

/// The list of the existing tiles has each of them, no other, in order and each once, as many as their count.
pub fn existing_is_whole()
    ensures exact { ExistingLaw }
    ensures ascends { ExistingAscendLaw }
    ensures count { ExistingCountLaw }
{}

/// The squares of an index are those of its cells, and ascend, each once, where the cells do not descend.
pub fn squares_are_of_cells()
    ensures exact { SquaresLaw }
    ensures ascends { SquaresAscendLaw }
{}

/// The squares that touch a tile are those of the squares that share a point with it, in their order.
pub fn touching_is_whole()
    ensures exact { TouchingLaw }
    ensures ascends { TouchingAscendLaw }
{}
