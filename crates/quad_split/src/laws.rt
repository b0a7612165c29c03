//! The laws of the split rule: functions with nothing to do, whose contracts say what holds of every grid and
//! every tolerance.

ghost use Rattle.quad_split.specs.Laws.{FitLaw, SplitLaw, LeafLaw, LineLaw};

/// A node fits by its test exactly where the plane of each of its twelve triangles is within the tolerance of
/// the height at each grid point that the closed triangle holds.
pub fn fit()
    ensures { FitLaw }
{}

/// A node of side 1 is not split. A larger one is split exactly where it does not fit, or where a node of half
/// its side is split that lies in it, or that lies beside it and shares a part of positive length of a side.
pub fn split()
    ensures { SplitLaw }
{}

/// A node that is not split fits. The planes of its leaf's triangles are within the tolerance of the height at
/// each grid point that they hold, whichever of its sides have midpoints.
pub fn leaf()
    ensures { LeafLaw }
{}

/// The lines between nodes: the four sides of a node that is split are broken in the middle. A leaf has the
/// midpoint of a side exactly where that side is broken, and the halves of its sides are whole.
pub fn lines()
    ensures { LineLaw }
{}
