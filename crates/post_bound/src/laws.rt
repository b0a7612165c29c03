//! What holds of the bounds: functions with nothing to do, whose contracts are laws.
ghost use Rattle.post_bound.specs.Laws.{SweptLaw, OneBoundLaw, PostBoundLaw, SpanBoundLaw, SpanKeepsLaw, BoundKeepsLaw, BoundIsLocalLaw};
ghost use Rattle.post_bound.specs.Window.{WindowLaw};

/// What is swept over a cell's axes, cut to the tile, is what the definition says of the cell's posts.
pub fn window()
    ensures { WindowLaw }
{}

/// What was swept at every triangle is the bound.
pub fn swept_is_bound()
    ensures { SweptLaw }
{}

/// There is one bound.
pub fn one_bound()
    ensures { OneBoundLaw }
{}

/// The bound as a number is the bound.
pub fn number_is_bound()
    ensures { PostBoundLaw }
{}

/// Below level 8 the bound is the greatest difference of a vertex and an extreme of a cell that touches the tile.
pub fn span_is_greatest()
    ensures { SpanBoundLaw }
{}

/// And the mesh keeps it at each post.
pub fn span_keeps()
    ensures { SpanKeepsLaw }
{}

/// The mesh of each grid keeps the bound of its level, over all sound cells and at every tile.
pub fn bound_keeps()
    ensures { BoundKeepsLaw }
{}

/// What does not touch the tile does not change its bound.
pub fn bound_is_local()
    ensures { BoundIsLocalLaw }
{}
