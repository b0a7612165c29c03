//! What the definitions of the tree come to, in the words of the subject. Each law is what a function with an empty
//! body ensures.
ghost use Rattle.std.specs.Prelude.{◌≡◌, ℕ, ◌≤◌};
ghost use Rattle.terrain_base.specs.declared.tile.TileId as tile;
ghost use Rattle.tms_tree.specs.Place.{place_of, SamePlace};
ghost use Rattle.tms_tree.specs.Degrees.{RectangleHolds, tile_rectangle};
ghost use Rattle.tms_tree.specs.Place.{point_of};
ghost use Rattle.tms_tree.specs.Touch.{TouchIsShared, OverlapIsShared};
ghost use Rattle.tms_tree.specs.Neighbour.{IsEastOf, IsNorthOf};

/// The grid points on a shared edge are the same: those of a tile's east edge and of its eastern
/// neighbour's west edge, those of its north edge and of its northern neighbour's south edge.
pub fn shared_edges()
    ensures east { (tile east : tile.TileId) (j : ℕ) → IsEastOf tile east
        → SamePlace (place_of tile 66 j) (place_of east 0 j) }
    ensures north { (tile north : tile.TileId) (i : ℕ) → IsNorthOf tile north
        → place_of tile i 66 ≡ place_of north i 0 }
{}

/// Each grid point of a tile lies in its closed rectangle.
pub fn grid_within_tile()
    ensures { (tile : tile.TileId) (i j : ℕ) → i ≤ 66 → j ≤ 66
        → RectangleHolds (tile_rectangle tile) (point_of (place_of tile i j)) }
{}

/// A tile touches a square exactly where their closed rectangles share a point, and overlaps it exactly where their
/// open ones do.
pub fn touch_is_a_shared_point()
    ensures touch { TouchIsShared }
    ensures overlap { OverlapIsShared }
{}
