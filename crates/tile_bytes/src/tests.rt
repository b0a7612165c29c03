// Terrain files against the bytes of another program.
ghost use Rattle.std.specs.Prelude.{◌≤◌, IfSome};
ghost use Rattle.terrain_base.specs.Height.{IsHeight};
ghost use Rattle.tile_mesh.specs.Mesh.{IsMeshAt};

use super::*;
use std::alloc::Global;
use terrain_base::{Grid, TileId};
use tile_mesh::{TileMesh, mesh_of};

const FLAT: [u8; 254] = [
    0, 0, 0, 0, 0, 64, 230, 191, 0, 0, 128, 63, 166, 84, 72, 193, 0, 0, 0, 0, 0, 0, 0, 0, 0, 0, 0,
    0, 0, 0, 128, 63, 0, 0, 0, 0, 0, 64, 230, 191, 0, 0, 128, 63, 166, 84, 72, 193, 0, 0, 0, 0, 0,
    0, 0, 0, 0, 0, 192, 85, 43, 33, 91, 65, 0, 0, 0, 0, 0, 80, 189, 190, 0, 0, 128, 255, 255, 255,
    31, 192, 0, 0, 0, 0, 0, 0, 0, 0, 9, 0, 0, 0, 0, 0, 28, 252, 59, 248, 30, 252, 225, 3, 226, 3,
    253, 255, 224, 3, 30, 124, 0, 0, 224, 3, 0, 0, 223, 3, 28, 252, 226, 3, 0, 0, 225, 3, 29, 124,
    0, 0, 0, 0, 0, 0, 0, 0, 0, 0, 0, 0, 0, 0, 0, 0, 0, 0, 12, 0, 0, 0, 0, 0, 0, 0, 0, 0, 3, 0, 0,
    0, 3, 0, 1, 0, 0, 0, 4, 0, 2, 0, 0, 0, 2, 0, 0, 0, 0, 0, 4, 0, 2, 0, 4, 0, 3, 0, 8, 0, 6, 0, 1,
    0, 8, 0, 1, 0, 2, 0, 0, 0, 7, 0, 8, 0, 1, 0, 8, 0, 5, 0, 1, 0, 5, 0, 2, 0, 1, 0, 2, 0, 7, 0, 2,
    0, 0, 0, 0, 0, 6, 0, 2, 0, 0, 0, 0, 0, 3, 0, 2, 0, 0, 0, 3, 0, 5, 0, 2, 0, 0, 0, 6, 0, 5, 0,
];

/// The hash FNV-1a of bytes.
fn hash(bytes: &[u8]) -> u64 {
    let mut hash: u64 = 0xcbf2_9ce4_8422_2325;
    for byte in bytes {
        hash = (hash ^ u64::from(*byte)).wrapping_mul(0x100_0000_01b3);
    }
    hash
}

/// The mesh of a grid.
fn mesh_at(alloc: Global, grid: Grid, z: u8) -> Option<TileMesh>
    requires { z ≤ 14 }
    ensures { IfSome result (IsMeshAt z) }
{
    mesh_of(alloc, &grid, z).ok()
}

/// A grid at 0 metres, but for a plateau from this column and this row on.
fn plateau(alloc: Global, west: u8, south: u8, metres: i16) -> Option<Grid>
    requires { IsHeight metres }
{
    let mut grid = Grid::new(alloc).ok()?;
    for k in 0..4489u16 {
        let i = (k % 67) as u8;
        let j = (k / 67) as u8;
        if i >= west && j >= south {
            grid.set(i, j, metres);
        }
    }
    Some(grid)
}

#[test]
fn flat_tile_has_its_bytes(rt: HostRuntime) {
    let tile = TileId::of(0, 0, 0).expect(&rt, "a tile");
    let grid = Grid::new(rt.alloc()).expect(&rt, "memory");
    let mesh = mesh_at(rt.alloc(), grid, 0).expect(&rt, "memory");
    let file = terrain(rt.alloc(), tile, &mesh).expect(&rt, "memory");
    assert_eq!(rt; file.horizon, None);
    assert_eq!(rt; &file.bytes[..], FLAT.as_slice());
}

#[test]
fn tile_of_a_plateau_has_its_bytes(rt: HostRuntime) {
    let tile = TileId::of(8, 284, 142).expect(&rt, "a tile");
    let grid = plateau(rt.alloc(), 30, 15, 500).expect(&rt, "memory");
    let mesh = mesh_at(rt.alloc(), grid, 8).expect(&rt, "memory");
    let file = terrain(rt.alloc(), tile, &mesh).expect(&rt, "memory");
    assert_eq!(rt; file.horizon, Some(257));
    assert_eq!(rt; file.bytes.len(), 13_850);
    assert_eq!(rt; hash(&file.bytes), 0xedfa_98f7_09d3_c5c4);
}
