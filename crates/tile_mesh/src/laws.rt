//! The laws of the mesh rule: functions with nothing to do, whose contracts say in the rule's own words what
//! its definitions give, for every grid and every level.

ghost use Rattle.tile_mesh.specs.InnerPoints.{InnerLaw};
ghost use Rattle.tile_mesh.specs.Laws.{CoverLaw, EdgeLaw, ToleranceLaw};
ghost use Rattle.tile_mesh.specs.LeafTriangles.{LeavesLaw};
ghost use Rattle.tile_mesh.specs.Merging.{MergeLaw};
ghost use Rattle.tile_mesh.specs.MeshNumbers.{NumberedLaw, FewTrianglesLaw, VertexHeightLaw, HeightRangeLaw};
ghost use Rattle.tile_mesh.specs.Numbering.{NumberingLaw};
ghost use Rattle.tile_mesh.specs.Seams.{SeamLaw};

/// The triangles of a mesh are counter-clockwise and cover the tile once, with one height at each rational
/// point.
pub fn cover()
    ensures { CoverLaw }
{}

/// The vertices of an edge's list are the kept points of the edge.
pub fn edges()
    ensures { EdgeLaw }
{}

/// At each grid point the plane of each triangle that holds it is within the level's tolerance of the height
/// there, and so is the surface of the mesh.
pub fn tolerance()
    ensures { ToleranceLaw }
{}

/// A mesh has from 1 to 4489 vertices, whose columns and rows are from 0 to 66. All numbers in its triangles
/// and in its edges' lists, of at most 67 numbers each, are those of vertices. Where a number stands in the
/// triangles each lower one stood before it, and each vertex is used.
pub fn numbered()
    ensures { NumberedLaw }
{}

/// Vertices are exactly the corners of the triangles, each once, in the order of their first use, and the
/// numbers of each triangle are those of vertices and name its corners.
pub fn numbering()
    ensures { NumberingLaw }
{}

/// A strip takes all points of both its lines, each once, by ascending index, and the outer one first where
/// an outer and an inner point have the same index.
pub fn merging()
    ensures { MergeLaw }
{}

/// The inner points of a strip ascend from 1 to 65 and are exactly the corners of leaves on the line beside
/// the edge. A leaf is a node that is not split, and is the root or has a split parent.
pub fn inner_line()
    ensures { InnerLaw }
{}

/// The triangles of the quadtree are those of its leaves, one leaf after the other, and no others: each node
/// that is not split, and is the root or has a split parent, comes once.
pub fn leaf_triangles()
    ensures { LeavesLaw }
{}

/// A mesh has at most 8712 triangles.
pub fn few_triangles()
    ensures { FewTrianglesLaw }
{}

/// Each vertex of a mesh has the height of its grid point.
pub fn vertex_heights()
    ensures { VertexHeightLaw }
{}

/// The heights of vertices are from -16000 to 16000 m, where the mesh is that of a grid in range.
pub fn heights_in_range()
    ensures { HeightRangeLaw }
{}

/// Where two grids have the same heights along a side of each, the edges of their meshes at a level have vertices
/// at the same places and heights: tiles side by side meet.
pub fn seams()
    ensures { SeamLaw }
{}
