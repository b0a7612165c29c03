//! What the definitions of an audit say of one another. Each function does nothing: its contract is a law.
ghost use Rattle.mesh_check.specs.Laws.{OneVerdictLaw, OneFindingLaw, NoneWhereCoveredLaw, GoodLaw};

/// Two verdicts on a mesh are one.
pub fn one_verdict()
    ensures { OneVerdictLaw }
{}

/// At most one finding comes.
pub fn one_finding()
    ensures { OneFindingLaw }
{}

/// No finding comes where the triangles of at most 16384 vertices cover the tile.
pub fn none_where_covered()
    ensures { NoneWhereCoveredLaw }
{}

/// A verdict is `Good` exactly where the triangles of at most 16384 vertices cover the tile.
pub fn good()
    ensures { GoodLaw }
{}
