//! The laws of kept points: functions with nothing to do, whose contracts say what holds of every line of
//! heights and every tolerance.

ghost use Rattle.edge_decimate.specs.Laws.{StraightLaw, HalvingLaw, AscendLaw, NearLaw};

/// The test of a height by whole numbers is that of its distance from the straight line, and the test of a
/// part of an edge is that of each height strictly between.
pub fn straight()
    ensures { StraightLaw }
{}

/// Between two points nothing is kept where all heights between are near the straight line, else the index
/// halfway, rounded down, and what is kept on both sides of it. An edge keeps its two ends and what is kept
/// between them. No bound on the number of halvings shows.
pub fn halving()
    ensures { HalvingLaw }
{}

/// The kept points ascend from 0 to 66, each once.
pub fn ascending()
    ensures { AscendLaw }
{}

/// Each height between two kept points that follow each other is within the tolerance of the straight line
/// from one to the other.
pub fn near()
    ensures { NearLaw }
{}
