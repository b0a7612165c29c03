//! The laws of a tile's two files. Each function does nothing, or calls the laws that it rests on: its contract is a
//! law for all params, cells and tiles.
ghost use Rattle.tile_rule.specs.Laws.{WellMadeLaw, GoodLaw, EastLaw, NorthLaw, TerrainIsLocal, NoteIsLocal};

/// The files of the mesh of each grid are well made, whatever the heights are and whatever the bound is.
pub fn files_are_well_made()
    ensures { WellMadeLaw }
{}

/// The terrain of each tile decodes to one header and one mesh, and to no other, without extensions, and each of its
/// vertices has a whole number of metres. With these as heights its triangles cover the tile once. At each grid point
/// the surface keeps the level's tolerance, and at each post the note's bound. The header's sphere reaches every corner
/// of every vertex's box. Where the note names a horizon, it is certified.
pub fn files_are_good()
    ensures { GoodLaw }
{
    post_bound::laws::bound_keeps();
}

/// Each two neighbours have the same places and heights along the edge that they share, in order, also across the
/// antimeridian.
pub fn neighbours_meet()
    ensures east { EastLaw }
    ensures north { NorthLaw }
{
    tms_tree::laws::shared_edges();
}

/// The files of a tile depend on the cells alone that touch it.
pub fn files_are_local()
    ensures terrain { TerrainIsLocal }
    ensures note { NoteIsLocal }
{
    post_bound::laws::bound_is_local();
}
