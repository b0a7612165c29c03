// The mesh of a grid at a level.
ghost use Rattle.std.specs.Prelude.{◌≡◌, ◌≤◌, [], IfOk, OnOk};
ghost use Rattle.quad_split.specs.SplitMap.{bit_at};
ghost use Rattle.tile_mesh.specs.Mesh.{mesh_on, kept_on, mesh_of_grid};
ghost use Rattle.terrain_base.specs.Grid.{tolerance_of};
ghost use Rattle.mesh_plane.specs.Cover.{Covers};
ghost use Rattle.tile_mesh.specs.Growth.{Grows};
ghost use Rattle.tile_mesh.specs.Numbers.{Adds};
ghost use Rattle.tile_mesh.specs.Plane.{edge_vertices, kept_vertices, triangles_in};
ghost use Rattle.tile_mesh.specs.Tolerance.{KeepsTolerance};
ghost use Rattle.tile_mesh.specs.Rule.{border_triangles, triangles_of};

use crate::builder::Builder;
use crate::inner::inner_indexes;
use crate::kept::kept_indexes;
use crate::mesh::TileMesh;
use quad_split::{Splits, split_map};
use std::alloc::Global;
use terrain_base::{Grid, NoMemory, Side, tolerance};

impl Builder {
    /// Adds the strip of a side.
    fn border(
        &mut self,
        alloc: Global,
        grid: &Grid,
        tol: u16,
        splits: &Splits,
        side: Side,
    ) -> Result<(), NoMemory>
        ensures { let ts = border_triangles (bit_at splits.now) (kept_on grid.now tol) side in
            OnOk result (Grows ts self.old self.new) }
    {
        let outer = kept_indexes(alloc, grid, tol, side)?;
        let inner = inner_indexes(alloc, splits, side)?;
        self.strip(side, &outer, &inner)?;
        Ok(())
    }

    /// The mesh, whose vertices lie on a grid.
    fn finish(self, alloc: Global, grid: &Grid) -> Result<TileMesh, NoMemory>
        ensures { IfOk result (λ mesh. mesh ≡ mesh_on grid.now self.points.items self.triangles.items) }
    {
        let points = self.vertices(alloc, grid)?;
        let west = self.edge(alloc, Side::West)?;
        let south = self.edge(alloc, Side::South)?;
        let east = self.edge(alloc, Side::East)?;
        let north = self.edge(alloc, Side::North)?;
        Ok(TileMesh {
            points,
            triangles: self.triangles,
            west,
            south,
            east,
            north,
        })
    }
}

/// All triangles of a grid.
fn triangulated(alloc: Global, grid: &Grid, tol: u16, splits: &Splits) -> Result<Builder, NoMemory>
    ensures { let ts = triangles_of (bit_at splits.now) (kept_on grid.now tol) in
        IfOk result (λ builder. Adds ts [] builder.points.items [] builder.triangles.items) }
{
    let mut builder = Builder::new(alloc)?;
    builder.border(alloc, grid, tol, splits, Side::South)?;
    builder.border(alloc, grid, tol, splits, Side::East)?;
    builder.border(alloc, grid, tol, splits, Side::North)?;
    builder.border(alloc, grid, tol, splits, Side::West)?;
    builder.all_leaves(splits)?;
    Ok(builder)
}

/// The mesh of a tile at level `z`, from the heights of its grid points: the strips along its edges, whose
/// outer points are the kept points of the edge and whose inner points are the corners of the quadtree's
/// leaves, and then the triangles of the leaves. Vertices are numbered by first use.
pub fn mesh_of(alloc: Global, grid: &Grid, z: u8) -> Result<TileMesh, NoMemory>
    requires { z ≤ 14 }
    ensures exact { IfOk result (λ mesh. mesh ≡ mesh_of_grid grid.now z) }
    ensures covers { IfOk result (λ mesh. Covers (triangles_in mesh)) }
    ensures edges { let kept = kept_vertices grid.now (tolerance_of z) in
        IfOk result (λ mesh. (side : Side) → edge_vertices mesh side ≡ kept side) }
    ensures tolerance { IfOk result (KeepsTolerance grid.now (tolerance_of z)) }
{
    let tol = tolerance(z);
    let splits = split_map(grid, tol);
    let builder = triangulated(alloc, grid, tol, &splits)?;
    builder.finish(alloc, grid)
}
