//! Laws of sight: functions with nothing to do, whose contracts say what holds of all meshes.

ghost use Rattle.sight_line.specs.Sight.{ClearLaw, SightLaw};

/// Sight is clear exactly where the line is not below the surface at any break.
pub fn clear()
    ensures { ClearLaw }
{}

/// Sight is clear exactly where the line is not below the surface at its ends and where it crosses sides.
pub fn crossings()
    ensures { SightLaw }
{}
