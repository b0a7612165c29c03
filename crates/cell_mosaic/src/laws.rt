//! What the definitions of candidates and values say, in the words of the subject. Each function does nothing: its
//! contract is a law.
ghost use Rattle.std.specs.Prelude.{◌≡◌, true, false, IsSome, Option};
ghost use Rattle.terrain_base.specs.Step.{Files};
ghost use Rattle.cell_mosaic.specs.declared.whole.WholeCells as whole;
ghost use Rattle.cell_mosaic.specs.BlendLaws.{FirstIsHeaviest, WeightsMakeTheUnit, RoundsHalfUp};
ghost use Rattle.cell_mosaic.specs.Candidates.{AreHolders};
ghost use Rattle.cell_mosaic.specs.Value.{ValuesArePosts};
ghost use Rattle.cell_mosaic.specs.ValueLaws.{
  ValueAtPost,
  PlacesHaveMeshes,
  ValueIsBlend,
  ValueBesideVoid,
  ValueByCorners,
  ValueOnColumn,
  ValueOnRow,
  ValueIsBetween,
};

/// A square is a candidate of a place exactly where its closed rectangle holds the place, longitudes modulo 360.
pub fn candidates_hold()
    ensures { AreHolders }
{}

/// The heaviest post is the first of those of greatest weight.
pub fn first_is_heaviest()
    ensures { FirstIsHeaviest }
{}

/// The weights of the four posts make up the product of the units.
pub fn weights_make_the_unit()
    ensures { WeightsMakeTheUnit }
{}

/// A weighted sum is rounded to the nearest metre, a half up.
pub fn rounds_half_up()
    ensures { RoundsHalfUp }
{}

/// A value in a cell is void or metres from -16000 to 16000.
pub fn values_are_posts()
    ensures { ValuesArePosts }
{}

/// At a post of a cell the value in the cell is that post, void or metres.
pub fn value_at_post()
    ensures { ValueAtPost }
{}

/// Each place of a square lies in a mesh of four neighbouring posts of the square's cell, or on its border.
pub fn places_have_meshes()
    ensures { PlacesHaveMeshes }
{}

/// In a mesh of four posts in metres, but for those of weight 0, the value is their bilinear blend: the sum of the
/// heights, each by the rectangle between the place and the opposite corner, over the whole mesh and 1/2, rounded down.
pub fn value_is_blend()
    ensures { ValueIsBlend }
{}

/// Where a post of weight above 0 is void, the value is the post of greatest weight among the four that are not, the
/// first of these in the order south-west, south-east, north-west, north-east; and void where all that have a weight
/// above 0 are.
pub fn value_beside_void()
    ensures { ValueBesideVoid }
{}

/// The value depends on the posts of weight above 0 alone.
pub fn value_by_corners()
    ensures { ValueByCorners }
{}

/// On a column of posts the value depends on the two posts of the column that are next to the place alone.
pub fn value_on_column()
    ensures { ValueOnColumn }
{}

/// On a row of posts the value depends on the two posts of the row that are next to the place alone.
pub fn value_on_row()
    ensures { ValueOnRow }
{}

/// The value is void, or lies between the least and the greatest of the posts of weight above 0.
pub fn value_is_between()
    ensures { ValueIsBetween }
{}

/// Cells in memory are sure, never spoilt and told, and told alike whatever store is lent.
pub fn whole_cells_are_sure()
    ensures sure { (source : whole.WholeCells) →
        ⟦<crate::WholeCells as crate::PostSource>⟧.sure source ≡ true }
    ensures unspoilt { (source : whole.WholeCells) →
        ⟦<crate::WholeCells as crate::PostSource>⟧.spoilt source ≡ false }
    ensures told { (source : whole.WholeCells) (files : Option Files) →
        IsSome (⟦<crate::WholeCells as crate::PostSource>⟧.cells source files) }
    ensures alike { (source : whole.WholeCells) (files files' : Option Files) →
        ⟦<crate::WholeCells as crate::PostSource>⟧.cells source files
        ≡ ⟦<crate::WholeCells as crate::PostSource>⟧.cells source files' }
{}
