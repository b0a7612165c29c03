// The triangles of the quadtree's leaves.
ghost use Rattle.std.specs.Prelude.{◌≡◌, ◌+◌, ◌-◌, ◌*◌, ◌^◌, ◌<◌, ◌≤◌, [], ◌∷◌, ◌++◌, OnOk, length};
ghost use Rattle.mesh_plane.specs.Triangles.{fan};
ghost use Rattle.mesh_plane.specs.Quadtree.{halves, leaves, midpoint};
ghost use Rattle.tile_mesh.specs.Growth.{Grows};
ghost use Rattle.tile_mesh.specs.Numbers.{IsOnGrid};
ghost use Rattle.tile_mesh.specs.Sides.{grid_point};
ghost use Rattle.tile_mesh.specs.Rule.{leaf_triangles};
ghost use Rattle.tile_mesh.specs.PlacedNodes.{IsPlacedNode, IsQuarter, as_midpoints, leaf_at};
ghost use Rattle.quad_split.specs.Midpoints.{midpoints_of};
ghost use Rattle.quad_split.specs.SplitMap.{bit_at};

use crate::builder::Builder;
use crate::point::GridPoint;
use quad_split::Splits;
use terrain_base::NoMemory;

/// A node of the quadtree: its level, its column and row among the nodes of this level, its south-west
/// corner and its side.
#[derive(Clone, Copy, Debug, PartialEq, Eq)]
pub(crate) struct PlacedNode {
    pub(crate) level: u8,
    pub(crate) x: u8,
    pub(crate) y: u8,
    pub(crate) i: u8,
    pub(crate) j: u8,
    pub(crate) side: u8,
}

/// Which sides of a leaf have midpoints.
#[derive(Clone, Copy, Debug, PartialEq, Eq)]
pub(crate) struct Midpoints {
    pub(crate) south: bool,
    pub(crate) east: bool,
    pub(crate) north: bool,
    pub(crate) west: bool,
}

/// A child of a node.
fn quarter(node: PlacedNode, east: u8, north: u8) -> PlacedNode
    requires node { IsPlacedNode node }
    requires large { 1 ≤ node.level }
    requires east { east ≤ 1 }
    requires north { north ≤ 1 }
    ensures { IsQuarter node east north result }
{
    let side = node.side / 2;
    PlacedNode {
        level: node.level - 1,
        x: 2 * node.x + east,
        y: 2 * node.y + north,
        i: node.i + east * side,
        j: node.j + north * side,
        side,
    }
}

/// The sides of a leaf beside which a node of the same side is split.
fn midpoints_at(splits: &Splits, leaf: PlacedNode) -> Midpoints
    requires leaf { IsPlacedNode leaf }
    ensures { as_midpoints result ≡ midpoints_of (bit_at splits.now) leaf.level leaf.x leaf.y }
{
    Midpoints {
        south: splits.split_at(leaf.level, leaf.x, leaf.y.saturating_sub(1)),
        east: splits.split_at(leaf.level, leaf.x + 1, leaf.y),
        north: splits.split_at(leaf.level, leaf.x, leaf.y + 1),
        west: splits.split_at(leaf.level, leaf.x.saturating_sub(1), leaf.y),
    }
}

impl Builder {
    /// Adds the triangles of a leaf's centre over one of its sides, which has the midpoint or not.
    fn side(
        &mut self,
        centre: GridPoint,
        from: GridPoint,
        middle: GridPoint,
        to: GridPoint,
        has: bool,
    ) -> Result<(), NoMemory>
        requires centre { IsOnGrid centre }
        requires from { IsOnGrid from }
        requires middle { IsOnGrid middle }
        requires to { IsOnGrid to }
        ensures { OnOk result (Grows (fan centre from (midpoint has middle ++ to ∷ [])) self.old self.new) }
    {
        if has {
            self.triangle(centre, from, middle)?;
            return self.triangle(centre, middle, to);
        }
        self.triangle(centre, from, to)
    }

    /// Adds the triangles of a leaf of side 1.
    fn smallest(&mut self, i: u8, j: u8) -> Result<(), NoMemory>
        requires i { i ≤ 65 }
        requires j { j ≤ 65 }
        ensures { let ne = grid_point (i + 1) (j + 1) in
            let ts = halves (grid_point i j) (grid_point (i + 1) j) ne (grid_point i (j + 1)) in
            OnOk result (Grows ts self.old self.new) }
    {
        let (sw, se) = (GridPoint { i, j }, GridPoint { i: i + 1, j });
        let (ne, nw) = (GridPoint { i: i + 1, j: j + 1 }, GridPoint { i, j: j + 1 });
        self.triangle(sw, se, ne)?;
        self.triangle(sw, ne, nw)
    }

    /// Adds the triangles of a larger leaf.
    fn larger(&mut self, half: u8, i: u8, j: u8, midpoints: Midpoints) -> Result<(), NoMemory>
        requires i { i + 2 * half ≤ 65 }
        requires j { j + 2 * half ≤ 65 }
        ensures { OnOk result (Grows (leaf_at half i j (as_midpoints midpoints)) self.old self.new) }
    {
        let (column, row, east, north) = (i + half, j + half, i + 2 * half, j + 2 * half);
        let centre = GridPoint { i: column, j: row };
        let (sw, se) = (GridPoint { i, j }, GridPoint { i: east, j });
        let (ne, nw) = (GridPoint { i: east, j: north }, GridPoint { i, j: north });
        let (west_middle, south_middle) = (GridPoint { i, j: row }, GridPoint { i: column, j });
        let east_middle = GridPoint { i: east, j: row };
        let north_middle = GridPoint {
            i: column,
            j: north,
        };
        self.side(centre, sw, south_middle, se, midpoints.south)?;
        self.side(centre, se, east_middle, ne, midpoints.east)?;
        self.side(centre, ne, north_middle, nw, midpoints.north)?;
        self.side(centre, nw, west_middle, sw, midpoints.west)?;
        Ok(())
    }

    /// Adds the triangles of the leaves of a node.
    fn leaves(&mut self, splits: &Splits, node: PlacedNode) -> Result<(), NoMemory>
        requires node { IsPlacedNode node }
        ensures { let split = bit_at splits.now in
            let ts = leaves grid_point split (midpoints_of split) node.level node.x node.y in
            OnOk result (Grows ts self.old self.new) }
    {
        if node.level == 0 {
            return self.smallest(node.i, node.j);
        }
        if splits.split_at(node.level, node.x, node.y) {
            self.leaves(splits, quarter(node, 0, 0))?;
            self.leaves(splits, quarter(node, 1, 0))?;
            self.leaves(splits, quarter(node, 0, 1))?;
            self.leaves(splits, quarter(node, 1, 1))?;
            return Ok(());
        }
        self.larger(node.side / 2, node.i, node.j, midpoints_at(splits, node))
    }

    /// Adds the triangles of all leaves.
    pub(crate) fn all_leaves(&mut self, splits: &Splits) -> Result<(), NoMemory>
        ensures { OnOk result (Grows (leaf_triangles (bit_at splits.now)) self.old self.new) }
    {
        let root = PlacedNode {
            level: 6,
            x: 0,
            y: 0,
            i: 1,
            j: 1,
            side: 64,
        };
        self.leaves(splits, root)
    }
}
