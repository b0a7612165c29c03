// The vertices of a mesh, and those on its edges.
ghost use Rattle.std.specs.Prelude.{◌≡◌, [], ◌++◌, map, position, IfOk, OnOk};
ghost use Rattle.std.specs.List.{cons_option};
ghost use Rattle.tile_mesh.specs.Mesh.{vertex_at, edge_numbers};
ghost use Rattle.tile_mesh.specs.Numbers.{IsOnGrid, point_eq};

use crate::builder::Builder;
use crate::point::{GridPoint, MeshPoint};
use crate::side::outer_point;
use std::alloc::Global;
use terrain_base::{Grid, NoMemory, Side};

impl Builder {
    /// The points as vertices on a grid, in their order.
    pub(crate) fn vertices(&self, alloc: Global, grid: &Grid) -> Result<Vec<MeshPoint>, NoMemory>
        ensures { IfOk result (λ vertices. vertices.items ≡ map (vertex_at grid.now) self.now.points.items) }
    {
        let mut vertices = Vec::new(alloc);
        for point in &self.points {
            let metres = grid.get(point.i, point.j);
            vertices.push(MeshPoint {
                i: point.i,
                j: point.j,
                metres,
            })?;
        }
        Ok(vertices)
    }

    /// Adds the number of a grid point to a list, if it is a vertex.
    fn push_number(&self, numbers: &mut Vec<u32>, point: GridPoint) -> Result<(), NoMemory>
        requires { IsOnGrid point }
        ensures { let number = position (point_eq point) self.now.points.items in
            OnOk result (numbers.new.items ≡ numbers.old.items ++ cons_option number []) }
    {
        if let Some(number) = self.number_of(point) {
            numbers.push(u32::from(number))?;
        }
        Ok(())
    }

    /// The numbers of the vertices on an edge.
    pub(crate) fn edge(&self, alloc: Global, side: Side) -> Result<Vec<u32>, NoMemory>
        ensures { IfOk result (λ numbers. numbers.items ≡ edge_numbers self.now.points.items side) }
    {
        let mut numbers = Vec::new(alloc);
        for index in 0..67u8 {
            self.push_number(&mut numbers, outer_point(side, index))?;
        }
        Ok(numbers)
    }
}
