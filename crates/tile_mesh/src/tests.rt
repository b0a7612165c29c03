ghost use Rattle.terrain_base.specs.Height.{IsHeight};

use super::*;
use terrain_base::{Grid, Indexes, Side};

const FLAT_POINTS: [(u8, u8); 9] = [
    (0, 0),
    (65, 1),
    (1, 1),
    (66, 0),
    (65, 65),
    (66, 66),
    (0, 66),
    (1, 65),
    (33, 33),
];

const FLAT_TRIANGLES: [(u32, u32, u32); 12] = [
    (0, 1, 2),
    (0, 3, 1),
    (3, 4, 1),
    (3, 5, 4),
    (6, 7, 4),
    (6, 4, 5),
    (0, 2, 7),
    (0, 7, 6),
    (8, 2, 1),
    (8, 1, 4),
    (8, 4, 7),
    (8, 7, 2),
];

#[test]
fn flat_grid_gives_the_flat_tile(rt: HostRuntime) {
    let grid = Grid::new(rt.alloc()).expect(&rt, "memory");
    let mesh = mesh_of(rt.alloc(), &grid, 0).expect(&rt, "memory");
    assert_eq!(rt; mesh.points().len(), 9);
    for (point, (i, j)) in mesh.points().iter().zip(FLAT_POINTS) {
        assert_eq!(rt; *point, MeshPoint { i, j, metres: 0 });
    }
    assert_eq!(rt; mesh.triangles().len(), 12);
    for (triangle, (a, b, c)) in mesh.triangles().iter().zip(FLAT_TRIANGLES) {
        assert_eq!(rt; *triangle, Indexes { a, b, c });
    }
    assert!(rt; mesh.edge(Side::West) == [0, 6].as_slice());
    assert!(rt; mesh.edge(Side::South) == [0, 3].as_slice());
    assert!(rt; mesh.edge(Side::East) == [3, 5].as_slice());
    assert!(rt; mesh.edge(Side::North) == [6, 5].as_slice());
}

// The numbers of a list, mixed into one (FNV-1a over words of 64 bits).
fn mixed(hash: u64, word: u64) -> u64 {
    (hash ^ word).wrapping_mul(1099511628211)
}

const START: u64 = 14695981039346656037;

fn mixed_points(start: u64, mesh: &TileMesh) -> u64 {
    let mut hash = start;
    for point in mesh.points() {
        hash = mixed(hash, u64::from(point.i));
        hash = mixed(hash, u64::from(point.j));
        hash = mixed(hash, (i64::from(point.metres) + 40000) as u64);
    }
    hash
}

fn mixed_triangles(start: u64, mesh: &TileMesh) -> u64 {
    let mut hash = start;
    for triangle in mesh.triangles() {
        hash = mixed(hash, u64::from(triangle.a));
        hash = mixed(hash, u64::from(triangle.b));
        hash = mixed(hash, u64::from(triangle.c));
    }
    hash
}

fn mixed_edges(start: u64, mesh: &TileMesh) -> u64 {
    let mut hash = start;
    for side in [Side::West, Side::South, Side::East, Side::North] {
        for number in mesh.edge(side) {
            hash = mixed(hash, u64::from(*number));
        }
    }
    hash
}

// All heights are 0 but six, of which four lie on the four edges. The numbers are those of another program.
#[test]
fn six_heights_give_the_mesh_of_another_program(rt: HostRuntime) {
    let mut grid = Grid::new(rt.alloc()).expect(&rt, "memory");
    grid.set(0, 7, 9000);
    grid.set(50, 66, -5000);
    grid.set(66, 20, 3000);
    grid.set(33, 0, 700);
    grid.set(20, 45, 400);
    grid.set(6, 6, 16000);
    let mesh = mesh_of(rt.alloc(), &grid, 5).expect(&rt, "memory");
    assert_eq!(rt; mesh.points().len(), 239);
    assert_eq!(rt; mesh.triangles().len(), 440);
    assert_eq!(rt; mixed_points(START, &mesh), 9136289811587015910);
    assert_eq!(rt; mixed_triangles(START, &mesh), 9353778010834365551);
    assert_eq!(rt; mixed_edges(START, &mesh), 17308917213295148926);
}

fn checkered(i: u8, j: u8) -> i16
    ensures { IsHeight result }
{
    if (i & 1) == (j & 1) { 0 } else { 1000 }
}

#[test]
fn rough_grid_gives_the_densest_tile(rt: HostRuntime) {
    let mut grid = Grid::new(rt.alloc()).expect(&rt, "memory");
    for j in 0..67u8 {
        for i in 0..67u8 {
            grid.set(i, j, checkered(i, j));
        }
    }
    let mesh = mesh_of(rt.alloc(), &grid, 14).expect(&rt, "memory");
    assert_eq!(rt; mesh.points().len(), 4489);
    assert_eq!(rt; mesh.triangles().len(), 8712);
    assert_eq!(rt; mixed_points(START, &mesh), 5597949315375991437);
    assert_eq!(rt; mixed_triangles(START, &mesh), 493027923516437913);
    assert_eq!(rt; mixed_edges(START, &mesh), 12474653853815048108);
}

fn bounded(height: i64) -> i16
    ensures { IsHeight result }
{
    height.clamp(-16000, 16000) as i16
}

const NEAR_EDGES: [i64; 6] = [0, 1, 2, 64, 65, 66];

// Heights of five kinds, by the remainder of n: a slope, a ridge along one column, a step across the tile,
// rough ground, and one height on or near the west or the east edge. None is cut to the bounds.
fn height_of(n: u64, i: u8, j: u8) -> i16
    ensures { IsHeight result }
{
    let word = mixed(START, n);
    let (a, b) = (((word >> 33) % 67) as i64, ((word >> 43) % 67) as i64);
    let most = (word >> 20) % 4001;
    let (x, y, h) = (i64::from(i), i64::from(j), most as i64);
    let near = NEAR_EDGES[(a % 6) as usize];
    let height = match n % 5 {
        0 => a.wrapping_mul(x).wrapping_sub(b.wrapping_mul(y)),
        1 => if x == a { h } else { 0 },
        2 => if x + y >= a + b { h } else { 0 },
        3 => ((mixed(mixed(word, u64::from(i)), u64::from(j)) >> 30) % (most + 1)) as i64,
        _ => if x == near && y == b { 4 * h - 8000 } else { 0 },
    };
    bounded(height)
}

// The numbers are those of another program.
#[test]
fn ten_grids_of_five_kinds_give_the_meshes_of_another_program(rt: HostRuntime) {
    let mut grid = Grid::new(rt.alloc()).expect(&rt, "memory");
    let (mut points, mut triangles, mut edges) = (START, START, START);
    for m in 0..10u64 {
        let n = 19 * m;
        for j in 0..67u8 {
            for i in 0..67u8 {
                grid.set(i, j, height_of(n, i, j));
            }
        }
        let mesh = mesh_of(rt.alloc(), &grid, (n / 5 % 15) as u8).expect(&rt, "memory");
        points = mixed_points(points, &mesh);
        triangles = mixed_triangles(triangles, &mesh);
        edges = mixed_edges(edges, &mesh);
    }
    assert_eq!(rt; points, 3611970081799113101);
    assert_eq!(rt; triangles, 1360097559215504063);
    assert_eq!(rt; edges, 4237589005445096053);
}
