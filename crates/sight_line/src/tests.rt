// Tiles of quantized-mesh-1.0, written by hand. Expected fractions are another program's, or were worked out by hand.
ghost use Rattle.std.specs.Prelude.{◌≡◌, ◌≢◌, pos, ◌≤◌, unsigned_abs};
ghost use Rattle.mesh_query.specs.Way.{place, IsSpot};
ghost use Rattle.sight_line.specs.Line.{IsEye};

use super::*;
use mesh_codec::TileView;
use mesh_query::{MeshField, Ratio, Spot};
use std::alloc::Global;
use std::process::Abort;

// Heights from 0 to 7: 0 m along the west edge and 7 m along the east edge, in two triangles.
const RAMP: [u8; 164] = [
    0, 0, 0, 0, 0, 0, 0, 0, 0, 0, 0, 0, 0, 0, 0, 0, 0, 0, 0, 0, 0, 0, 0, 0, 0, 0, 0, 0, 0, 0, 224,
    64, 0, 0, 0, 0, 0, 0, 0, 0, 0, 0, 0, 0, 0, 0, 0, 0, 0, 0, 0, 0, 0, 0, 0, 0, 0, 0, 0, 0, 0, 0,
    0, 0, 0, 0, 0, 0, 0, 0, 0, 0, 0, 0, 0, 0, 0, 0, 0, 0, 0, 0, 0, 0, 0, 0, 0, 0, 4, 0, 0, 0, 0, 0,
    254, 255, 0, 0, 253, 255, 0, 0, 0, 0, 254, 255, 0, 0, 0, 0, 254, 255, 0, 0, 253, 255, 2, 0, 0,
    0, 0, 0, 0, 0, 0, 0, 3, 0, 1, 0, 0, 0, 2, 0, 0, 0, 0, 0, 3, 0, 2, 0, 0, 0, 0, 0, 1, 0, 2, 0, 0,
    0, 1, 0, 2, 0, 2, 0, 0, 0, 2, 0, 3, 0,
];

// The same with a fifth vertex that no triangle has, at (32767, 0), of 0 m: the surface there is 7 m high.
const LOOSE: [u8; 170] = [
    0, 0, 0, 0, 0, 0, 0, 0, 0, 0, 0, 0, 0, 0, 0, 0, 0, 0, 0, 0, 0, 0, 0, 0, 0, 0, 0, 0, 0, 0, 224,
    64, 0, 0, 0, 0, 0, 0, 0, 0, 0, 0, 0, 0, 0, 0, 0, 0, 0, 0, 0, 0, 0, 0, 0, 0, 0, 0, 0, 0, 0, 0,
    0, 0, 0, 0, 0, 0, 0, 0, 0, 0, 0, 0, 0, 0, 0, 0, 0, 0, 0, 0, 0, 0, 0, 0, 0, 0, 5, 0, 0, 0, 0, 0,
    254, 255, 0, 0, 253, 255, 254, 255, 0, 0, 0, 0, 254, 255, 0, 0, 253, 255, 0, 0, 254, 255, 0, 0,
    253, 255, 0, 0, 2, 0, 0, 0, 0, 0, 0, 0, 0, 0, 3, 0, 1, 0, 0, 0, 2, 0, 0, 0, 0, 0, 3, 0, 2, 0,
    0, 0, 0, 0, 1, 0, 2, 0, 0, 0, 1, 0, 2, 0, 2, 0, 0, 0, 2, 0, 3, 0,
];

// Heights from -100 to 4581: four triangles round the vertex (10000, 20000) of 4581 m.
const FAN: [u8; 182] = [
    0, 0, 0, 0, 0, 0, 0, 0, 0, 0, 0, 0, 0, 0, 0, 0, 0, 0, 0, 0, 0, 0, 0, 0, 0, 0, 200, 194, 0, 40,
    143, 69, 0, 0, 0, 0, 0, 0, 0, 0, 0, 0, 0, 0, 0, 0, 0, 0, 0, 0, 0, 0, 0, 0, 0, 0, 0, 0, 0, 0, 0,
    0, 0, 0, 0, 0, 0, 0, 0, 0, 0, 0, 0, 0, 0, 0, 0, 0, 0, 0, 0, 0, 0, 0, 0, 0, 0, 0, 5, 0, 0, 0, 0,
    0, 254, 255, 221, 177, 222, 177, 253, 255, 0, 0, 0, 0, 64, 156, 190, 99, 0, 0, 0, 0, 120, 5,
    134, 250, 239, 255, 90, 16, 4, 0, 0, 0, 0, 0, 0, 0, 0, 0, 2, 0, 0, 0, 2, 0, 1, 0, 0, 0, 3, 0,
    1, 0, 5, 0, 3, 0, 2, 0, 0, 0, 0, 0, 4, 0, 2, 0, 0, 0, 0, 0, 1, 0, 2, 0, 0, 0, 1, 0, 3, 0, 2, 0,
    0, 0, 3, 0, 4, 0,
];

// The field of a tile.
fn field(rt: &impl Abort, alloc: Global, bytes: &[u8]) -> MeshField {
    let view = TileView::read(bytes).expect(rt, "a tile");
    MeshField::of(alloc, &view).expect(rt, "a field")
}

// An eye over a spot.
fn eye(u: u16, v: u16, metres: i32) -> Eye
    ensures { result ≡ record { spot = record { u = u; v = v }; metres = metres } }
{
    Eye {
        spot: Spot { u, v },
        metres,
    }
}

// A fraction.
fn ratio(over: i128, under: i128) -> Ratio {
    Ratio { over, under }
}

#[test]
fn a_line_along_a_slope_is_clear(rt: HostRuntime) {
    let ramp = field(&rt, rt.alloc(), &RAMP);
    let answer = sight(rt.alloc(), &ramp, eye(0, 0, 0), eye(32767, 0, 7)).expect(&rt, "memory");
    assert_eq!(rt; answer, SightAnswer::Clear);
}

#[test]
fn a_line_that_ends_below_the_surface_is_blocked_there(rt: HostRuntime) {
    let ramp = field(&rt, rt.alloc(), &RAMP);
    let answer = sight(rt.alloc(), &ramp, eye(0, 0, 6), eye(32767, 0, 6)).expect(&rt, "memory");
    let wanted = SightAnswer::Blocked {
        at: ratio(1, 1),
        triangle: 0,
        ground: ratio(7, 1),
        line: ratio(6, 1),
    };
    assert_eq!(rt; answer, wanted);
}

#[test]
fn a_point_at_the_surface_sees_all_of_a_slope(rt: HostRuntime) {
    let ramp = field(&rt, rt.alloc(), &RAMP);
    let seen = view(rt.alloc(), &ramp, eye(0, 0, 0)).expect(&rt, "memory");
    let all: [u32; 4] = [0, 1, 2, 3];
    assert!(rt; seen.as_slice() == all.as_slice());
}

#[test]
fn a_point_below_the_surface_sees_nothing(rt: HostRuntime) {
    let ramp = field(&rt, rt.alloc(), &RAMP);
    let seen = view(rt.alloc(), &ramp, eye(0, 0, -1)).expect(&rt, "memory");
    assert_eq!(rt; seen.len(), 0);
}

#[test]
fn a_vertex_below_the_surface_is_not_seen_from_its_own_spot(rt: HostRuntime) {
    let loose = field(&rt, rt.alloc(), &LOOSE);
    let seen = view(rt.alloc(), &loose, eye(32767, 0, 7)).expect(&rt, "memory");
    let all: [u32; 4] = [0, 1, 2, 3];
    assert!(rt; seen.as_slice() == all.as_slice());
}

#[test]
fn a_summit_blocks_by_the_first_of_its_triangles(rt: HostRuntime) {
    let fan = field(&rt, rt.alloc(), &FAN);
    let from = eye(20000, 20000, 4000);
    let answer = sight(rt.alloc(), &fan, from, eye(0, 20000, 3000)).expect(&rt, "memory");
    let wanted = SightAnswer::Blocked {
        at: ratio(1, 2),
        triangle: 0,
        ground: ratio(4581, 1),
        line: ratio(3500, 1),
    };
    assert_eq!(rt; answer, wanted);
}

#[test]
fn vertices_behind_a_summit_are_not_seen(rt: HostRuntime) {
    let fan = field(&rt, rt.alloc(), &FAN);
    let seen = view(rt.alloc(), &fan, eye(5000, 1, 2000)).expect(&rt, "memory");
    let near: [u32; 3] = [0, 1, 2];
    assert!(rt; seen.as_slice() == near.as_slice());
}
