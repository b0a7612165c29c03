// Meshes of made-up grids.
ghost use Rattle.std.specs.Prelude.{◌≤◌};
ghost use Rattle.terrain_base.specs.Height.{IsHeight};

use std::alloc::Global;
use terrain_base::{Grid, NoMemory};
use tile_mesh::mesh_of;

/// A kind of grid.
#[derive(Clone, Copy)]
pub enum Kind {
    /// Every other grid point is 1000 metres high, so that every grid point is a vertex.
    Dense,
    /// Slopes up and down in both directions.
    Hilly,
}

// How high a slope up and down of this width is at a grid line.
fn slope(line: u8, width: u8) -> u8
    requires { (1 ≤ width) × (width ≤ 66) }
    ensures { result ≤ 66 }
{
    let along = line % width;
    along.min(width - along)
}

// The height at a grid point, in metres.
fn height(kind: Kind, i: u8, j: u8) -> i16
    ensures { IsHeight result }
{
    match kind {
        Kind::Dense => { if i % 2 == j % 2 { 0 } else { 1000 } }
        Kind::Hilly => i16::from(slope(i, 22)) * 30 + i16::from(slope(j, 30)) * 20,
    }
}

// Sets the heights of a row.
fn fill(grid: &mut Grid, kind: Kind, j: u8)
    requires { j ≤ 66 }
{
    for i in 0..67u8 {
        grid.set(i, j, height(kind, i, j));
    }
}

fn grid(alloc: Global, kind: Kind) -> Result<Grid, NoMemory> {
    let mut grid = Grid::new(alloc)?;
    for j in 0..67u8 {
        fill(&mut grid, kind, j);
    }
    Ok(grid)
}

/// The number of vertices and triangles of so many meshes of a grid at level 12, modulo 2^64.
pub(crate) fn sum(alloc: Global, kind: Kind, count: u32) -> Result<u64, NoMemory> {
    let grid = grid(alloc, kind)?;
    let mut sum: u64 = 0;
    for _ in 0..count {
        let mesh = mesh_of(alloc, &grid, 12)?;
        sum = sum.wrapping_add(mesh.points().len() as u64);
        sum = sum.wrapping_add(mesh.triangles().len() as u64);
    }
    Ok(sum)
}
