// Meshes of a sample of grids, and hashes of all that they say.
ghost use Rattle.terrain_base.specs.Height.{IsHeight};

use std::alloc::Global;
use terrain_base::{Grid, NoMemory, Side};
use tile_mesh::{TileMesh, mesh_of};

// The offset basis and the prime of FNV-1a, whose step is done on whole numbers here.
const START: u64 = 14_695_981_039_346_656_037;

const PRIME: u64 = 1_099_511_628_211;

// Grid lines at a border, next to it, and one further.
const NEAR_BORDERS: [u64; 6] = [0, 1, 2, 64, 65, 66];

// The hash with a number more.
fn mixed(hash: u64, number: u64) -> u64 {
    (hash ^ number).wrapping_mul(PRIME)
}

// The height in metres at a grid point of the grid of this number: a plane, a ridge, a step, noise, or a single peak
// that is often near a border.
fn height(number: u64, i: u8, j: u8) -> i16
    ensures { IsHeight result }
{
    let seed = mixed(START, number);
    let (a, b, top) = ((seed >> 33) % 67, (seed >> 43) % 67, (seed >> 20) % 4001);
    let (column, row) = (u64::from(i), u64::from(j));
    let metres = match number % 5 {
        0 => (a as i64)
            .wrapping_mul(i64::from(i))
            .wrapping_sub((b as i64).wrapping_mul(i64::from(j))),
        1 if column == a => top as i64,
        2 if column + row >= a + b => top as i64,
        3 => ((mixed(mixed(seed, column), row) >> 30) % (top + 1)) as i64,
        4 if column == NEAR_BORDERS[(a % 6) as usize] && row == b => 4 * top as i64 - 8000,
        _ => 0,
    };
    metres.clamp(-16_000, 16_000) as i16
}

fn grid(alloc: Global, number: u64) -> Result<Grid, NoMemory> {
    let mut grid = Grid::new(alloc)?;
    for k in 0..4489u16 {
        let (i, j) = ((k % 67) as u8, (k / 67) as u8);
        grid.set(i, j, height(number, i, j));
    }
    Ok(grid)
}

/// What the meshes say: how many triangles there are, and hashes of vertices, triangles and edges.
#[derive(Clone, Copy)]
pub struct Said {
    pub count: u64,
    pub points: u64,
    pub triangles: u64,
    pub edges: u64,
}

impl Said {
    fn add_points(&mut self, mesh: &TileMesh) {
        for point in mesh.points() {
            self.points = mixed(self.points, u64::from(point.i));
            self.points = mixed(self.points, u64::from(point.j));
            self.points = mixed(self.points, (i64::from(point.metres) + 40_000) as u64);
        }
    }

    fn add_triangles(&mut self, mesh: &TileMesh) {
        for triangle in mesh.triangles() {
            self.count = self.count.wrapping_add(1);
            self.triangles = mixed(self.triangles, u64::from(triangle.a));
            self.triangles = mixed(self.triangles, u64::from(triangle.b));
            self.triangles = mixed(self.triangles, u64::from(triangle.c));
        }
    }

    fn add_edge(&mut self, mesh: &TileMesh, side: Side) {
        for vertex in mesh.edge(side) {
            self.edges = mixed(self.edges, u64::from(*vertex));
        }
    }

    fn add(&mut self, mesh: &TileMesh) {
        self.add_points(mesh);
        self.add_triangles(mesh);
        self.add_edge(mesh, Side::West);
        self.add_edge(mesh, Side::South);
        self.add_edge(mesh, Side::East);
        self.add_edge(mesh, Side::North);
    }
}

/// What the meshes of so many grids say, at levels 0 to 14 in turn.
pub(crate) fn of_grids(alloc: Global, count: u32) -> Result<Said, NoMemory> {
    let mut said = Said {
        count: 0,
        points: START,
        triangles: START,
        edges: START,
    };
    for number in 0..u64::from(count) {
        let grid = grid(alloc, number)?;
        said.add(&mesh_of(alloc, &grid, (number / 5 % 15) as u8)?);
    }
    Ok(said)
}
