//! What courses and states are held to. Each function does nothing, or calls the laws that it rests on: its contract is
//! a law.
ghost use Rattle.database.specs.State.{ReadsFor, StandsFor};
ghost use Rattle.top_reply.specs.Laws.{EachHasCourse, EachPasses, FilesAreGood, LinesAreTold, OneCourse, OneState};
ghost use Rattle.top_reply.specs.Laws.{RunsChain, ValidEndsWell};

/// A command has one course.
pub fn one_course()
    ensures { OneCourse }
{}

/// A command on a database reaches one state.
pub fn one_state()
    ensures { OneState }
{}

/// Over files that open, each command on a database has a course, and states that it passes.
pub fn each_has_course()
    ensures course { EachHasCourse }
    ensures states { EachPasses }
{}

/// The files of a state are a good database: each tile that exists decodes to triangles that cover it once, keep the
/// level's tolerance at the grid points and the printed bound at the posts, with a sphere that reaches every vertex's
/// box; and each two tiles side by side are equal along the edge that they share.
pub fn files_are_good()
    ensures { FilesAreGood }
{
    tile_rule::laws::files_are_good();
    tile_rule::laws::neighbours_meet();
}

/// Where a script was stopped: of the states that it passes the files are that after as many command lines as the sink
/// took whole lines beginning with `line `, or that after one more; and the first of these, where a file outside was
/// not read. So it is of files that stood for a state, and of files that only read as one.
pub fn lines_are_told()
    ensures standing { LinesAreTold StandsFor }
    ensures reading { LinesAreTold ReadsFor }
{}

/// The course of a valid call is done; that of an audit may find that the mesh does not cover its tile once.
pub fn valid_ends_well()
    ensures { ValidEndsWell }
{}

/// From a beginning on, after any number of answered runs, the files are those of the state after all accepted
/// commands.
pub fn runs_chain()
    ensures { RunsChain }
{
    files_are_good();
}
