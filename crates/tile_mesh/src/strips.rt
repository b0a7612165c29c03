// The strips between a tile's edges and the square of its quadtree.
ghost use Rattle.std.specs.Prelude.{◌≤◌, [], ◌∷◌, map, OnOk};
ghost use Rattle.std.specs.List.{AllByRecursion};
ghost use Rattle.mesh_plane.specs.Triangles.{cornered, strip};
ghost use Rattle.tile_mesh.specs.Growth.{Grows};
ghost use Rattle.tile_mesh.specs.Numbers.{IsOnGrid};
ghost use Rattle.tile_mesh.specs.Sides.{outer_at, inner_at, step_at};
ghost use Rattle.tile_mesh.specs.Merge.{merge};
ghost use Rattle.tile_mesh.specs.Rule.{strip_triangles};

use crate::builder::Builder;
use crate::point::GridPoint;
use crate::side::{inner_point, outer_point};
use terrain_base::{NoMemory, Side};

impl Builder {
    /// Adds the triangle of an outer point, an inner one and the next point of the strip after them.
    fn corner(
        &mut self,
        side: Side,
        outer: GridPoint,
        inner: GridPoint,
        next: GridPoint,
    ) -> Result<(), NoMemory>
        requires outer { IsOnGrid outer }
        requires inner { IsOnGrid inner }
        requires next { IsOnGrid next }
        ensures { OnOk result (Grows (cornered side outer inner next ∷ []) self.old self.new) }
    {
        match side {
            Side::South | Side::East => self.triangle(outer, next, inner),
            Side::North | Side::West => self.triangle(outer, inner, next),
        }
    }

    /// Adds the triangles of a strip from the outer point `o` and the inner point `n` on.
    fn strip_from(
        &mut self,
        side: Side,
        outer: &[u8],
        inner: &[u8],
        o: u8,
        n: u8,
    ) -> Result<(), NoMemory>
        requires outer { AllByRecursion (λ x. x ≤ 66) outer.now }
        requires inner { AllByRecursion (λ x. x ≤ 66) inner.now }
        requires o { o ≤ 66 }
        requires n { n ≤ 66 }
        ensures { let steps = map (step_at side) (merge outer.now inner.now) in
            let ts = strip side (outer_at side o) (inner_at side n) steps in
            OnOk result (Grows ts self.old self.new) }
    {
        let (from, to) = (outer_point(side, o), inner_point(side, n));
        match (outer, inner) {
            ([], []) => Ok(()),
            ([x, xs @ ..], []) => {
                self.corner(side, from, to, outer_point(side, *x))?;
                self.strip_from(side, xs, inner, *x, n)
            }
            ([], [y, ys @ ..]) => {
                self.corner(side, from, to, inner_point(side, *y))?;
                self.strip_from(side, outer, ys, o, *y)
            }
            ([x, xs @ ..], [y, ys @ ..]) => {
                if *x <= *y {
                    self.corner(side, from, to, outer_point(side, *x))?;
                    return self.strip_from(side, xs, inner, *x, n);
                }
                self.corner(side, from, to, inner_point(side, *y))?;
                self.strip_from(side, outer, ys, o, *y)
            }
        }
    }

    /// Adds the triangles of a strip whose points have these indexes, on the edge and on the line beside it.
    pub(crate) fn strip(&mut self, side: Side, outer: &[u8], inner: &[u8]) -> Result<(), NoMemory>
        requires outer { AllByRecursion (λ x. x ≤ 66) outer.now }
        requires inner { AllByRecursion (λ x. x ≤ 66) inner.now }
        ensures { OnOk result (Grows (strip_triangles side outer.now inner.now) self.old self.new) }
    {
        match (outer, inner) {
            ([o, outer @ ..], [n, inner @ ..]) => self.strip_from(side, outer, inner, *o, *n),
            _ => Ok(()),
        }
    }
}
