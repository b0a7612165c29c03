// Tiles of quantized-mesh-1.0, written by hand. Expected fractions are another program's, or were worked out by hand.
ghost use Rattle.std.specs.Prelude.{◌≢◌, pos, ◌≤◌};
ghost use Rattle.mesh_plane.specs.Plane.{IsScale, IsTilePoint};
ghost use Rattle.mesh_query.specs.Way.{place, IsSpot};

use super::*;
use mesh_check::Finding;
use mesh_codec::TileView;
use std::alloc::Global;
use std::process::Abort;

// Heights from 0 to 7: 0 m along the west edge and 7 m along the east edge, in two triangles.
const RAMP: [u8; 164] = [
    0, 0, 0, 0, 0, 0, 0, 0, 0, 0, 0, 0, 0, 0, 0, 0, 0, 0, 0, 0, 0, 0, 0, 0, 0, 0, 0, 0, 0, 0, 224,
    64, 0, 0, 0, 0, 0, 0, 0, 0, 0, 0, 0, 0, 0, 0, 0, 0, 0, 0, 0, 0, 0, 0, 0, 0, 0, 0, 0, 0, 0, 0,
    0, 0, 0, 0, 0, 0, 0, 0, 0, 0, 0, 0, 0, 0, 0, 0, 0, 0, 0, 0, 0, 0, 0, 0, 0, 0, 4, 0, 0, 0, 0, 0,
    254, 255, 0, 0, 253, 255, 0, 0, 0, 0, 254, 255, 0, 0, 0, 0, 254, 255, 0, 0, 253, 255, 2, 0, 0,
    0, 0, 0, 0, 0, 0, 0, 3, 0, 1, 0, 0, 0, 2, 0, 0, 0, 0, 0, 3, 0, 2, 0, 0, 0, 0, 0, 1, 0, 2, 0, 0,
    0, 1, 0, 2, 0, 2, 0, 0, 0, 2, 0, 3, 0,
];

// The same vertices, of which the first triangle stands twice.
const DOUBLE: [u8; 164] = [
    0, 0, 0, 0, 0, 0, 0, 0, 0, 0, 0, 0, 0, 0, 0, 0, 0, 0, 0, 0, 0, 0, 0, 0, 0, 0, 0, 0, 0, 0, 224,
    64, 0, 0, 0, 0, 0, 0, 0, 0, 0, 0, 0, 0, 0, 0, 0, 0, 0, 0, 0, 0, 0, 0, 0, 0, 0, 0, 0, 0, 0, 0,
    0, 0, 0, 0, 0, 0, 0, 0, 0, 0, 0, 0, 0, 0, 0, 0, 0, 0, 0, 0, 0, 0, 0, 0, 0, 0, 4, 0, 0, 0, 0, 0,
    254, 255, 0, 0, 253, 255, 0, 0, 0, 0, 254, 255, 0, 0, 0, 0, 254, 255, 0, 0, 253, 255, 2, 0, 0,
    0, 0, 0, 0, 0, 0, 0, 3, 0, 2, 0, 1, 0, 2, 0, 0, 0, 0, 0, 3, 0, 2, 0, 0, 0, 0, 0, 1, 0, 2, 0, 0,
    0, 1, 0, 2, 0, 2, 0, 0, 0, 2, 0, 3, 0,
];

// 7 m everywhere.
const FLAT: [u8; 164] = [
    0, 0, 0, 0, 0, 0, 0, 0, 0, 0, 0, 0, 0, 0, 0, 0, 0, 0, 0, 0, 0, 0, 0, 0, 0, 0, 224, 64, 0, 0, 0,
    65, 0, 0, 0, 0, 0, 0, 0, 0, 0, 0, 0, 0, 0, 0, 0, 0, 0, 0, 0, 0, 0, 0, 0, 0, 0, 0, 0, 0, 0, 0,
    0, 0, 0, 0, 0, 0, 0, 0, 0, 0, 0, 0, 0, 0, 0, 0, 0, 0, 0, 0, 0, 0, 0, 0, 0, 0, 4, 0, 0, 0, 0, 0,
    254, 255, 0, 0, 253, 255, 0, 0, 0, 0, 254, 255, 0, 0, 0, 0, 0, 0, 0, 0, 0, 0, 2, 0, 0, 0, 0, 0,
    0, 0, 0, 0, 3, 0, 1, 0, 0, 0, 2, 0, 0, 0, 0, 0, 3, 0, 2, 0, 0, 0, 0, 0, 1, 0, 2, 0, 0, 0, 1, 0,
    2, 0, 2, 0, 0, 0, 2, 0, 3, 0,
];

// Heights from -100 to 4581: four triangles round the vertex (10000, 20000) of 4581 m.
const FAN: [u8; 182] = [
    0, 0, 0, 0, 0, 0, 0, 0, 0, 0, 0, 0, 0, 0, 0, 0, 0, 0, 0, 0, 0, 0, 0, 0, 0, 0, 200, 194, 0, 40,
    143, 69, 0, 0, 0, 0, 0, 0, 0, 0, 0, 0, 0, 0, 0, 0, 0, 0, 0, 0, 0, 0, 0, 0, 0, 0, 0, 0, 0, 0, 0,
    0, 0, 0, 0, 0, 0, 0, 0, 0, 0, 0, 0, 0, 0, 0, 0, 0, 0, 0, 0, 0, 0, 0, 0, 0, 0, 0, 5, 0, 0, 0, 0,
    0, 254, 255, 221, 177, 222, 177, 253, 255, 0, 0, 0, 0, 64, 156, 190, 99, 0, 0, 0, 0, 120, 5,
    134, 250, 239, 255, 90, 16, 4, 0, 0, 0, 0, 0, 0, 0, 0, 0, 2, 0, 0, 0, 2, 0, 1, 0, 0, 0, 3, 0,
    1, 0, 5, 0, 3, 0, 2, 0, 0, 0, 0, 0, 4, 0, 2, 0, 0, 0, 0, 0, 1, 0, 2, 0, 0, 0, 1, 0, 3, 0, 2, 0,
    0, 0, 3, 0, 4, 0,
];

// Heights from 0 to 7: vertex 2 is 1 m high, and vertex 3 is 7/32767 m. The first triangle stands twice.
const FRACTION: [u8; 170] = [
    0, 0, 0, 0, 0, 0, 0, 0, 0, 0, 0, 0, 0, 0, 0, 0, 0, 0, 0, 0, 0, 0, 0, 0, 0, 0, 0, 0, 0, 0, 224,
    64, 0, 0, 0, 0, 0, 0, 0, 0, 0, 0, 0, 0, 0, 0, 0, 0, 0, 0, 0, 0, 0, 0, 0, 0, 0, 0, 0, 0, 0, 0,
    0, 0, 0, 0, 0, 0, 0, 0, 0, 0, 0, 0, 0, 0, 0, 0, 0, 0, 0, 0, 0, 0, 0, 0, 0, 0, 4, 0, 0, 0, 0, 0,
    254, 255, 0, 0, 253, 255, 0, 0, 0, 0, 254, 255, 0, 0, 0, 0, 254, 255, 107, 219, 143, 36, 3, 0,
    0, 0, 0, 0, 0, 0, 0, 0, 3, 0, 1, 0, 0, 0, 4, 0, 3, 0, 2, 0, 2, 0, 0, 0, 0, 0, 3, 0, 2, 0, 0, 0,
    0, 0, 1, 0, 2, 0, 0, 0, 1, 0, 2, 0, 2, 0, 0, 0, 2, 0, 3, 0,
];

// The least height is half a metre.
const HALF: [u8; 164] = [
    0, 0, 0, 0, 0, 0, 0, 0, 0, 0, 0, 0, 0, 0, 0, 0, 0, 0, 0, 0, 0, 0, 0, 0, 0, 0, 0, 63, 0, 0, 224,
    64, 0, 0, 0, 0, 0, 0, 0, 0, 0, 0, 0, 0, 0, 0, 0, 0, 0, 0, 0, 0, 0, 0, 0, 0, 0, 0, 0, 0, 0, 0,
    0, 0, 0, 0, 0, 0, 0, 0, 0, 0, 0, 0, 0, 0, 0, 0, 0, 0, 0, 0, 0, 0, 0, 0, 0, 0, 4, 0, 0, 0, 0, 0,
    254, 255, 0, 0, 253, 255, 0, 0, 0, 0, 254, 255, 0, 0, 0, 0, 254, 255, 0, 0, 253, 255, 2, 0, 0,
    0, 0, 0, 0, 0, 0, 0, 3, 0, 1, 0, 0, 0, 2, 0, 0, 0, 0, 0, 3, 0, 2, 0, 0, 0, 0, 0, 1, 0, 2, 0, 0,
    0, 1, 0, 2, 0, 2, 0, 0, 0, 2, 0, 3, 0,
];

// The field of a tile.
fn field(rt: &impl Abort, alloc: Global, bytes: &[u8]) -> Result<MeshField, QueryRefusal> {
    let view = TileView::read(bytes).expect(rt, "a tile");
    MeshField::of(alloc, &view)
}

// A fraction.
fn ratio(over: i128, under: i128) -> Ratio {
    Ratio { over, under }
}

// A break at a fraction, with its height.
fn bend(at: (i128, i128), metres: (i128, i128)) -> Break {
    Break {
        at: ratio(at.0, at.1),
        metres: ratio(metres.0, metres.1),
    }
}

#[test]
fn heights_of_a_flat_tile_and_of_a_ramp(rt: HostRuntime) {
    let flat = field(&rt, rt.alloc(), &FLAT).expect(&rt, "a field");
    assert_eq!(rt; height_at(&flat, 1, 0, 0), ratio(7, 1));
    let ramp = field(&rt, rt.alloc(), &RAMP).expect(&rt, "a field");
    assert_eq!(rt; height_at(&ramp, 2, 32767, 32767), ratio(7, 2));
    assert_eq!(rt; height_at(&ramp, 1, 0, 12), ratio(0, 1));
}

#[test]
fn heights_inside_triangles_and_on_sides(rt: HostRuntime) {
    let fan = field(&rt, rt.alloc(), &FAN).expect(&rt, "a field");
    assert_eq!(rt; height_at(&fan, 1, 5000, 7000), ratio(1011142289, 655340));
    assert_eq!(rt; height_at(&fan, 1, 10000, 20000), ratio(4581, 1));
    assert_eq!(rt; height_at(&fan, 3, 98301, 0), ratio(0, 1));
}

#[test]
fn breaks_at_a_corner_of_two_triangles_stand_once(rt: HostRuntime) {
    let ramp = field(&rt, rt.alloc(), &RAMP).expect(&rt, "a field");
    let from = Spot { u: 0, v: 32767 };
    let to = Spot { u: 32767, v: 0 };
    let list = breaks(rt.alloc(), &ramp, from, to).expect(&rt, "memory");
    let wanted = [
        bend((0, 1), (0, 1)),
        bend((1, 2), (7, 2)),
        bend((1, 1), (7, 1)),
    ];
    assert!(rt; list.as_slice() == wanted.as_slice());
}

#[test]
fn breaks_along_an_edge_are_its_ends(rt: HostRuntime) {
    let fan = field(&rt, rt.alloc(), &FAN).expect(&rt, "a field");
    let from = Spot { u: 0, v: 0 };
    let to = Spot { u: 32767, v: 0 };
    let list = breaks(rt.alloc(), &fan, from, to).expect(&rt, "memory");
    let wanted = [bend((0, 1), (-100, 1)), bend((1, 1), (0, 1))];
    assert!(rt; list.as_slice() == wanted.as_slice());
}

#[test]
fn breaks_across_four_triangles(rt: HostRuntime) {
    let fan = field(&rt, rt.alloc(), &FAN).expect(&rt, "a field");
    let from = Spot { u: 5000, v: 1 };
    let to = Spot { u: 30000, v: 32000 };
    let list = breaks(rt.alloc(), &fan, from, to).expect(&rt, "memory");
    let wanted = [
        bend((0, 1), (-55381617673, 655340000)),
        bend((555317233, 1228521233), (4070407388373, 1228521233)),
        bend((391482233, 409346233), (284108693373, 409346233)),
        bend((1, 1), (685253411, 3515431)),
    ];
    assert!(rt; list.as_slice() == wanted.as_slice());
}

#[test]
fn the_first_vertex_without_whole_metres_is_told_before_the_audit(rt: HostRuntime) {
    for (bytes, vertex) in [(&FRACTION as &[u8], 3), (&HALF as &[u8], 0)] {
        match field(&rt, rt.alloc(), bytes) {
            Ok(_) => assert!(rt; false),
            Err(refusal) => assert_eq!(rt; refusal, QueryRefusal::NotWhole { vertex }),
        }
    }
}

#[test]
fn a_triangle_that_stands_twice_is_a_gap(rt: HostRuntime) {
    let finding = Finding::SlabGap {
        low: 0,
        high: 32767,
        place: 0,
    };
    match field(&rt, rt.alloc(), &DOUBLE) {
        Ok(_) => assert!(rt; false),
        Err(refusal) => assert_eq!(rt; refusal, QueryRefusal::Unsound { finding }),
    }
}
