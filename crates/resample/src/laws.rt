//! What the definitions of heights and grids say, in the words of the subject. Each function does nothing: its contract
//! is a law.
ghost use Rattle.resample.specs.HeightLaws.{GridHasHeights, TurnChangesNothing, HeightIsLocal, GridIsLocal, HeightsInRange, GridsInRange};

/// A grid has the height of the place at each of its points.
pub fn grid_has_heights()
    ensures { GridHasHeights }
{}

/// A whole turn of longitude changes no height.
pub fn turn_changes_nothing()
    ensures { TurnChangesNothing }
{}

/// Heights and grids are local.
pub fn heights_are_local()
    ensures height { HeightIsLocal }
    ensures grid { GridIsLocal }
{}

/// Heights and grids are from -16000 to 16000 metres.
pub fn heights_in_range()
    ensures height { HeightsInRange }
    ensures grid { GridsInRange }
{}
