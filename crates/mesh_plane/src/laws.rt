//! The laws of cover: functions with nothing to do, whose contracts say what holds of all triangles.

ghost use Rattle.mesh_plane.specs.Fan.{FanLaw};
ghost use Rattle.mesh_plane.specs.Strip.{StripLaw};
ghost use Rattle.mesh_plane.specs.Join.{JoinLaw};
ghost use Rattle.mesh_plane.specs.Continuity.{ContinuityLaw};
ghost use Rattle.mesh_plane.specs.SurfaceLaw.{SurfaceLaw};
ghost use Rattle.mesh_plane.specs.Rescale.{RescaleLaw};

/// The triangles of a point strictly inside a rectangle with each two neighbours on a ring round it tile
/// the rectangle. The ring lies on the border, counter-clockwise, and has the rectangle's four corners.
pub fn fan()
    ensures { FanLaw }
{}

/// A strip of triangles between two lines along an axis tiles the quadrilateral between its ends, on each
/// of the four sides of a square and in whatever order the points of the two lines are taken.
pub fn strip()
    ensures { StripLaw }
{}

/// Where a line has all corners of one list of triangles on its one closed side, and all of another list on
/// the other, and neither list holds a point strictly twice, both together do not.
pub fn join()
    ensures { JoinLaw }
{}

/// Where the planes of two triangles have one height at two different points, they have one height at each
/// point of the line through these.
pub fn continuity()
    ensures { ContinuityLaw }
{}

/// Where triangles cover the tile, their surface has exactly one height at each of its points, whatever scale
/// names the point. A plane's height within its triangle is from the least to the greatest of its corners'.
pub fn surface()
    ensures { SurfaceLaw }
{}

/// Triangles that cover the tile still cover it with their heights in another unit.
pub fn rescale()
    ensures { RescaleLaw }
{}
