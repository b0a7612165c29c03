//! Laws of profiles: functions with nothing to do, whose contracts say what holds of all meshes.

ghost use Rattle.mesh_query.specs.Crossing.{BreakLaw, MeetsLaw, SideHeightLaw, CornerLaw, SameLaw};
ghost use Rattle.mesh_query.specs.Answer.{OneAnswerLaw};
ghost use Rattle.mesh_query.specs.Profile.{ProfileLaw};
ghost use Rattle.mesh_query.specs.Straight.{StraightLaw};

/// Between two neighbouring breaks of a segment the surface is straight.
pub fn straight()
    ensures { StraightLaw }
{}

/// Each refusal but want of memory comes exactly where its cause holds.
pub fn one_answer()
    ensures { OneAnswerLaw }
{}

/// A segment meets a side that is not parallel to it exactly where it crosses it, at one fraction.
pub fn meets()
    ensures { MeetsLaw }
{}

/// Where a segment crosses a side, the surface has the side's height there.
pub fn side_heights()
    ensures { SideHeightLaw }
{}

/// The ends of a side on the segment's line are points of the sides beside it.
pub fn corners()
    ensures { CornerLaw }
{}

/// The surface has one height at one place, however the fractions are written.
pub fn same()
    ensures { SameLaw }
{}

/// Between each two neighbouring breaks of a profile the surface is straight.
pub fn profile()
    ensures { ProfileLaw }
{}

/// The breaks of a segment are its ends and the fractions at which it crosses sides.
pub fn breaks()
    ensures { BreakLaw }
{}
