//! The laws of frames and codes: functions with nothing to do, whose contracts say what holds of all heights.
ghost use Rattle.height_lattice.specs.Laws.{OneFrameLaw, OneCodeLaw, OneHeightLaw, FrameLaw, CodeLaw};

/// The least and the greatest height fix the frame.
pub fn one_frame()
    ensures { OneFrameLaw }
{}

/// A height has at most one code in a frame.
pub fn one_code()
    ensures { OneCodeLaw }
{}

/// A code stands for at most one height of a frame.
pub fn one_height()
    ensures { OneHeightLaw }
{}

/// Heights that lie at most 32767 metres apart have a frame.
pub fn frame()
    ensures { FrameLaw }
{}

/// Each height of a frame has a code, which is at most 32767.
pub fn code()
    ensures { CodeLaw }
{}
