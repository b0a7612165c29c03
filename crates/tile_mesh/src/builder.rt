// A mesh that grows by triangles, whose points are numbered by first use.
ghost use Rattle.std.specs.Prelude.{◌≡◌, [], ◌∷◌, None, length, position, replicate, IfOk, OnOk};
ghost use Rattle.std.specs.List.{position_or_len, IsDistinct};
ghost use Rattle.std.proofs.Props.{props};
ghost use Rattle.std.proofs.lemmas.Map.Keys.{IsDistinct-prop};
ghost use Rattle.tile_mesh.specs.Numbers.{IsOnGrid, AreOnGrid, ArePlaces, point_eq, triple, with_point};

use crate::point::GridPoint;
use std::alloc::Global;
use terrain_base::{Indexes, NoMemory};

/// A mesh that grows.
#[derive(Drop)]
pub(crate) struct Builder {
    pub(crate) points: Vec<GridPoint>,
    // The number of each grid point that has one, by its place on the grid: each point is asked for some six
    // times, and this is faster than a search by hash.
    numbers: Vec<Option<u16>>,
    pub(crate) triangles: Vec<Indexes>,
    ghost on_grid: { AreOnGrid points.items },
    ghost distinct: { IsDistinct point_eq points.items } by { IsDistinct-prop point_eq points.items },
    ghost full: { length numbers.items ≡ 4489 },
    ghost places: { ArePlaces numbers.items points.items } by { Prim.hlevel props },
}

/// A table in which no grid point has a number.
fn no_numbers(alloc: Global) -> Result<Vec<Option<u16>>, NoMemory>
    ensures { IfOk result (λ numbers. numbers.items ≡ replicate 4489 None) }
{
    let mut numbers = Vec::new(alloc);
    numbers.resize(4489, None)?;
    Ok(numbers)
}

impl Builder {
    ghost use Rattle.tile_mesh.specs.Growth.{Grows};

    /// A mesh without triangles.
    pub(crate) fn new(alloc: Global) -> Result<Builder, NoMemory>
        ensures points { IfOk result (λ builder. builder.points.items ≡ []) }
        ensures triangles { IfOk result (λ builder. builder.triangles.items ≡ []) }
    {
        Ok(Builder {
            points: Vec::new(alloc),
            numbers: no_numbers(alloc)?,
            triangles: Vec::new(alloc),
        })
    }

    /// The number of a grid point that has one.
    pub(crate) fn number_of(&self, point: GridPoint) -> Option<u16>
        requires { IsOnGrid point }
        ensures { result ≡ position (point_eq point) self.now.points.items }
    {
        self.numbers[point.spot()]
    }

    /// The number of a point, which comes next if the point has none yet.
    fn number(&mut self, point: GridPoint) -> Result<u32, NoMemory>
        requires { IsOnGrid point }
        ensures number { IfOk result (λ n. n ≡ position_or_len (point_eq point) self.old.points.items) }
        ensures points { OnOk result (self.new.points.items ≡ with_point self.old.points.items point) }
        ensures rest { self.new.triangles.items ≡ self.old.triangles.items }
    {
        if let Some(number) = self.number_of(point) {
            return Ok(u32::from(number));
        }
        let number = self.points.len() as u16;
        self.points.push(point)?;
        self.numbers[point.spot()] = Some(number);
        Ok(u32::from(number))
    }

    /// Adds a triangle.
    pub(crate) fn triangle(
        &mut self,
        a: GridPoint,
        b: GridPoint,
        c: GridPoint,
    ) -> Result<(), NoMemory>
        requires a { IsOnGrid a }
        requires b { IsOnGrid b }
        requires c { IsOnGrid c }
        ensures { OnOk result (Grows (triple a b c ∷ []) self.old self.new) }
    {
        let a = self.number(a)?;
        let b = self.number(b)?;
        let c = self.number(c)?;
        self.triangles.push(Indexes { a, b, c })?;
        Ok(())
    }
}
