//! The laws of boxes: functions with nothing to do, whose contracts say what holds of all places and heights.
ghost use Rattle.ecef_boxes.specs.Laws.{EnclosureLaw, SizeLaw};

/// The box of a place encloses what the formulas of Earth-fixed coordinates give for it, at every height.
pub fn enclosure()
    ensures { EnclosureLaw }
{}

/// The numbers of a box are within -2^31 to 2^31 at each height from -16000 to 16000 m.
pub fn size()
    ensures { SizeLaw }
{}
