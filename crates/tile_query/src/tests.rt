// Tiles of quantized-mesh-1.0. Expected texts are another program's, or were worked out by hand.
ghost use Rattle.std.specs.Prelude.{◌≤◌, unsigned_abs};
ghost use Rattle.mesh_query.specs.Way.{IsSpot};
ghost use Rattle.sight_line.specs.Line.{IsEye};
ghost use Rattle.tile_query.specs.Question.{AreEnds, IsGoodQuestion};

use super::*;
use mesh_query::Spot;
use sight_line::Eye;
use std::alloc::Global;
use std::process::Abort;
use terrain_base::TileId;

// Heights from 0 to 7: 0 m along the west edge and 7 m along the east edge, in two triangles.
const RAMP: [u8; 164] = [
    0, 0, 0, 0, 0, 0, 0, 0, 0, 0, 0, 0, 0, 0, 0, 0, 0, 0, 0, 0, 0, 0, 0, 0, 0, 0, 0, 0, 0, 0, 224,
    64, 0, 0, 0, 0, 0, 0, 0, 0, 0, 0, 0, 0, 0, 0, 0, 0, 0, 0, 0, 0, 0, 0, 0, 0, 0, 0, 0, 0, 0, 0,
    0, 0, 0, 0, 0, 0, 0, 0, 0, 0, 0, 0, 0, 0, 0, 0, 0, 0, 0, 0, 0, 0, 0, 0, 0, 0, 4, 0, 0, 0, 0, 0,
    254, 255, 0, 0, 253, 255, 0, 0, 0, 0, 254, 255, 0, 0, 0, 0, 254, 255, 0, 0, 253, 255, 2, 0, 0,
    0, 0, 0, 0, 0, 0, 0, 3, 0, 1, 0, 0, 0, 2, 0, 0, 0, 0, 0, 3, 0, 2, 0, 0, 0, 0, 0, 1, 0, 2, 0, 0,
    0, 1, 0, 2, 0, 2, 0, 0, 0, 2, 0, 3, 0,
];

// The same vertices, of which the first triangle stands twice.
const DOUBLE: [u8; 164] = [
    0, 0, 0, 0, 0, 0, 0, 0, 0, 0, 0, 0, 0, 0, 0, 0, 0, 0, 0, 0, 0, 0, 0, 0, 0, 0, 0, 0, 0, 0, 224,
    64, 0, 0, 0, 0, 0, 0, 0, 0, 0, 0, 0, 0, 0, 0, 0, 0, 0, 0, 0, 0, 0, 0, 0, 0, 0, 0, 0, 0, 0, 0,
    0, 0, 0, 0, 0, 0, 0, 0, 0, 0, 0, 0, 0, 0, 0, 0, 0, 0, 0, 0, 0, 0, 0, 0, 0, 0, 4, 0, 0, 0, 0, 0,
    254, 255, 0, 0, 253, 255, 0, 0, 0, 0, 254, 255, 0, 0, 0, 0, 254, 255, 0, 0, 253, 255, 2, 0, 0,
    0, 0, 0, 0, 0, 0, 0, 3, 0, 2, 0, 1, 0, 2, 0, 0, 0, 0, 0, 3, 0, 2, 0, 0, 0, 0, 0, 1, 0, 2, 0, 0,
    0, 1, 0, 2, 0, 2, 0, 0, 0, 2, 0, 3, 0,
];

// 7 m everywhere.
const FLAT: [u8; 164] = [
    0, 0, 0, 0, 0, 0, 0, 0, 0, 0, 0, 0, 0, 0, 0, 0, 0, 0, 0, 0, 0, 0, 0, 0, 0, 0, 224, 64, 0, 0, 0,
    65, 0, 0, 0, 0, 0, 0, 0, 0, 0, 0, 0, 0, 0, 0, 0, 0, 0, 0, 0, 0, 0, 0, 0, 0, 0, 0, 0, 0, 0, 0,
    0, 0, 0, 0, 0, 0, 0, 0, 0, 0, 0, 0, 0, 0, 0, 0, 0, 0, 0, 0, 0, 0, 0, 0, 0, 0, 4, 0, 0, 0, 0, 0,
    254, 255, 0, 0, 253, 255, 0, 0, 0, 0, 254, 255, 0, 0, 0, 0, 0, 0, 0, 0, 0, 0, 2, 0, 0, 0, 0, 0,
    0, 0, 0, 0, 3, 0, 1, 0, 0, 0, 2, 0, 0, 0, 0, 0, 3, 0, 2, 0, 0, 0, 0, 0, 1, 0, 2, 0, 0, 0, 1, 0,
    2, 0, 2, 0, 0, 0, 2, 0, 3, 0,
];

// Heights from 0 to 7: vertex 2 is 1 m high, and vertex 3 is 7/32767 m. The first triangle stands twice.
const FRACTION: [u8; 170] = [
    0, 0, 0, 0, 0, 0, 0, 0, 0, 0, 0, 0, 0, 0, 0, 0, 0, 0, 0, 0, 0, 0, 0, 0, 0, 0, 0, 0, 0, 0, 224,
    64, 0, 0, 0, 0, 0, 0, 0, 0, 0, 0, 0, 0, 0, 0, 0, 0, 0, 0, 0, 0, 0, 0, 0, 0, 0, 0, 0, 0, 0, 0,
    0, 0, 0, 0, 0, 0, 0, 0, 0, 0, 0, 0, 0, 0, 0, 0, 0, 0, 0, 0, 0, 0, 0, 0, 0, 0, 4, 0, 0, 0, 0, 0,
    254, 255, 0, 0, 253, 255, 0, 0, 0, 0, 254, 255, 0, 0, 0, 0, 254, 255, 107, 219, 143, 36, 3, 0,
    0, 0, 0, 0, 0, 0, 0, 0, 3, 0, 1, 0, 0, 0, 4, 0, 3, 0, 2, 0, 2, 0, 0, 0, 0, 0, 3, 0, 2, 0, 0, 0,
    0, 0, 1, 0, 2, 0, 0, 0, 1, 0, 2, 0, 2, 0, 0, 0, 2, 0, 3, 0,
];

// A tile of 14 vertices, 3/8/4, of a database with one cell of hills.
const HILLS: [u8; 324] = [
    0, 0, 64, 230, 97, 142, 86, 65, 0, 0, 0, 174, 51, 159, 50, 65, 0, 0, 0, 125, 156, 129, 50, 65,
    0, 0, 0, 0, 0, 72, 146, 69, 0, 0, 64, 230, 97, 142, 86, 65, 0, 0, 0, 174, 51, 159, 50, 65, 0,
    0, 0, 125, 156, 129, 50, 65, 0, 0, 0, 115, 98, 50, 59, 65, 0, 0, 0, 216, 151, 27, 240, 63, 0,
    0, 0, 64, 177, 152, 202, 63, 0, 0, 0, 64, 37, 133, 202, 63, 14, 0, 0, 0, 0, 0, 28, 252, 59,
    248, 30, 252, 225, 3, 226, 3, 253, 255, 224, 3, 223, 3, 0, 0, 0, 0, 0, 0, 0, 0, 254, 127, 0, 0,
    224, 3, 0, 0, 223, 3, 28, 252, 226, 3, 0, 0, 225, 3, 91, 244, 194, 7, 132, 15, 8, 31, 240, 65,
    0, 0, 70, 7, 69, 7, 98, 14, 97, 14, 0, 0, 0, 0, 0, 0, 0, 0, 194, 81, 193, 81, 0, 0, 0, 0, 0, 0,
    0, 0, 17, 0, 0, 0, 0, 0, 0, 0, 0, 0, 3, 0, 0, 0, 3, 0, 1, 0, 0, 0, 4, 0, 2, 0, 0, 0, 2, 0, 0,
    0, 0, 0, 4, 0, 2, 0, 4, 0, 3, 0, 8, 0, 6, 0, 0, 0, 1, 0, 7, 0, 0, 0, 1, 0, 8, 0, 0, 0, 1, 0, 9,
    0, 0, 0, 1, 0, 10, 0, 0, 0, 1, 0, 11, 0, 6, 0, 1, 0, 6, 0, 7, 0, 0, 0, 12, 0, 13, 0, 1, 0, 13,
    0, 10, 0, 1, 0, 10, 0, 7, 0, 1, 0, 7, 0, 12, 0, 7, 0, 0, 0, 0, 0, 8, 0, 9, 0, 10, 0, 11, 0, 12,
    0, 6, 0, 2, 0, 0, 0, 0, 0, 3, 0, 2, 0, 0, 0, 3, 0, 5, 0, 2, 0, 0, 0, 6, 0, 5, 0,
];

// A tile of 40 vertices, 3/8/6.
const VALLEYS: [u8; 812] = [
    0, 0, 128, 74, 48, 220, 73, 65, 0, 0, 0, 46, 39, 97, 42, 65, 0, 0, 192, 182, 73, 193, 83, 65,
    0, 0, 0, 0, 0, 32, 132, 68, 0, 0, 128, 74, 48, 220, 73, 65, 0, 0, 0, 46, 39, 97, 42, 65, 0, 0,
    192, 182, 73, 193, 83, 65, 0, 0, 0, 174, 96, 29, 56, 65, 0, 0, 0, 144, 140, 239, 225, 63, 0, 0,
    0, 64, 188, 75, 194, 63, 0, 0, 0, 240, 192, 126, 235, 63, 40, 0, 0, 0, 0, 0, 238, 65, 13, 62,
    22, 93, 8, 31, 16, 62, 14, 62, 226, 3, 225, 3, 0, 0, 0, 0, 226, 3, 253, 255, 224, 3, 30, 124,
    29, 124, 0, 0, 8, 31, 6, 31, 0, 0, 132, 15, 132, 15, 132, 15, 132, 15, 139, 46, 132, 15, 132,
    15, 132, 15, 21, 93, 6, 31, 8, 31, 8, 31, 8, 31, 8, 31, 6, 31, 13, 62, 8, 31, 6, 31, 37, 155,
    32, 124, 0, 0, 224, 3, 0, 0, 0, 0, 0, 0, 0, 0, 0, 0, 223, 3, 238, 65, 16, 62, 30, 124, 226, 3,
    0, 0, 225, 3, 0, 0, 45, 186, 16, 62, 21, 93, 0, 0, 6, 31, 137, 46, 132, 15, 131, 15, 132, 15,
    132, 15, 130, 15, 129, 15, 130, 15, 8, 31, 8, 31, 7, 31, 8, 31, 21, 93, 6, 31, 5, 31, 14, 62,
    8, 31, 7, 31, 24, 93, 0, 0, 0, 0, 0, 0, 0, 0, 0, 0, 0, 0, 0, 0, 0, 0, 0, 0, 0, 0, 0, 0, 0, 0,
    0, 0, 0, 0, 0, 0, 0, 0, 0, 0, 0, 0, 0, 0, 0, 0, 0, 0, 116, 218, 115, 218, 0, 0, 0, 0, 0, 0, 0,
    0, 0, 0, 0, 0, 0, 0, 0, 0, 0, 0, 0, 0, 0, 0, 0, 0, 0, 0, 0, 0, 0, 0, 0, 0, 0, 0, 0, 0, 74, 0,
    0, 0, 0, 0, 0, 0, 0, 0, 3, 0, 0, 0, 3, 0, 4, 0, 0, 0, 2, 0, 5, 0, 0, 0, 2, 0, 6, 0, 0, 0, 2, 0,
    7, 0, 0, 0, 2, 0, 1, 0, 0, 0, 3, 0, 2, 0, 0, 0, 2, 0, 3, 0, 0, 0, 2, 0, 4, 0, 0, 0, 2, 0, 0, 0,
    0, 0, 0, 0, 3, 0, 1, 0, 5, 0, 3, 0, 5, 0, 4, 0, 15, 0, 13, 0, 0, 0, 16, 0, 1, 0, 0, 0, 17, 0,
    1, 0, 4, 0, 17, 0, 4, 0, 5, 0, 0, 0, 16, 0, 17, 0, 1, 0, 17, 0, 0, 0, 2, 0, 1, 0, 0, 0, 3, 0,
    1, 0, 5, 0, 3, 0, 5, 0, 18, 0, 0, 0, 20, 0, 18, 0, 1, 0, 18, 0, 0, 0, 2, 0, 1, 0, 4, 0, 2, 0,
    4, 0, 21, 0, 0, 0, 20, 0, 19, 0, 1, 0, 19, 0, 0, 0, 2, 0, 1, 0, 3, 0, 2, 0, 3, 0, 21, 0, 0, 0,
    7, 0, 4, 0, 1, 0, 4, 0, 0, 0, 2, 0, 1, 0, 7, 0, 2, 0, 7, 0, 8, 0, 0, 0, 6, 0, 4, 0, 1, 0, 4, 0,
    0, 0, 2, 0, 1, 0, 3, 0, 2, 0, 3, 0, 7, 0, 0, 0, 14, 0, 10, 0, 1, 0, 10, 0, 0, 0, 2, 0, 1, 0,
    14, 0, 2, 0, 14, 0, 15, 0, 0, 0, 12, 0, 6, 0, 1, 0, 6, 0, 4, 0, 1, 0, 4, 0, 0, 0, 2, 0, 1, 0,
    3, 0, 2, 0, 3, 0, 13, 0, 0, 0, 29, 0, 28, 0, 1, 0, 28, 0, 0, 0, 2, 0, 1, 0, 7, 0, 2, 0, 7, 0,
    11, 0, 2, 0, 11, 0, 30, 0, 0, 0, 30, 0, 29, 0, 1, 0, 29, 0, 27, 0, 1, 0, 27, 0, 2, 0, 1, 0, 2,
    0, 30, 0, 0, 0, 9, 0, 3, 0, 1, 0, 3, 0, 0, 0, 2, 0, 1, 0, 6, 0, 2, 0, 6, 0, 10, 0, 0, 0, 5, 0,
    30, 0, 1, 0, 30, 0, 29, 0, 1, 0, 29, 0, 2, 0, 1, 0, 2, 0, 5, 0, 0, 0, 23, 0, 10, 0, 1, 0, 10,
    0, 8, 0, 1, 0, 8, 0, 25, 0, 1, 0, 25, 0, 26, 0, 1, 0, 26, 0, 23, 0, 0, 0, 9, 0, 4, 0, 1, 0, 4,
    0, 31, 0, 1, 0, 31, 0, 30, 0, 1, 0, 30, 0, 26, 0, 1, 0, 26, 0, 9, 0, 2, 0, 0, 0, 0, 0, 12, 0,
    2, 0, 0, 0, 0, 0, 7, 0, 2, 0, 0, 0, 7, 0, 11, 0, 2, 0, 0, 0, 12, 0, 11, 0,
];

// A spot.
fn spot(rt: &impl Abort, at: (u16, u16)) -> Spot
    ensures { IsSpot result }
{
    let (u, v) = at;
    assert!(rt; u <= 32767 && v <= 32767);
    Spot { u, v }
}

// Two spots that differ.
#[tactic(auto, using(crate::proofs::Spots::place_apart))]
fn ends(rt: &impl Abort, from: (u16, u16), to: (u16, u16)) -> (Spot, Spot)
    ensures { AreEnds result.0 result.1 }
{
    let from = spot(rt, from);
    let to = spot(rt, to);
    assert!(rt; from != to);
    (from, to)
}

// A height within 65535 metres.
fn metres(rt: &impl Abort, height: i32) -> i32
    ensures { unsigned_abs result ≤ 65535 }
{
    assert!(rt; height >= -65535 && height <= 65535);
    height
}

// What a command prints for the answer.
fn said(rt: &impl Abort, alloc: Global, tile: TileId, bytes: &[u8], question: &Question) -> String
    requires { IsGoodQuestion tile question.now }
{
    match answer(alloc, tile, bytes, question).expect(rt, "memory") {
        Answer::Told(text) => text,
        Answer::Refused(cause) => { format!(in alloc; "refused {cause}\n").expect(rt, "memory") }
    }
}

// The height at a place, over the bytes of its tile.
fn height_at_place(
    rt: &impl Abort,
    alloc: Global,
    bytes: &[u8],
    level: u8,
    place: (u32, u32),
) -> String {
    let (east, north) = place;
    assert!(rt; level <= 14 && east <= 1_295_999 && north <= 648_000);
    let tile = tile_at(level, east, north);
    said(rt, alloc, tile, bytes, &Question::Height { east, north })
}

// The profile between two spots.
fn profile_between(
    rt: &impl Abort,
    alloc: Global,
    tile: TileId,
    bytes: &[u8],
    from: (u16, u16),
    to: (u16, u16),
) -> String {
    let (from, to) = ends(rt, from, to);
    said(rt, alloc, tile, bytes, &Question::Profile { from, to })
}

// Whether the one eye sees the other.
fn sight_between(
    rt: &impl Abort,
    alloc: Global,
    tile: TileId,
    bytes: &[u8],
    from: (u16, u16, i32),
    to: (u16, u16, i32),
) -> String {
    let spots = ends(rt, (from.0, from.1), (to.0, to.1));
    let from = Eye {
        spot: spots.0,
        metres: metres(rt, from.2),
    };
    let to = Eye {
        spot: spots.1,
        metres: metres(rt, to.2),
    };
    said(rt, alloc, tile, bytes, &Question::Sight { from, to })
}

// Which vertices an eye sees.
fn view_from(
    rt: &impl Abort,
    alloc: Global,
    tile: TileId,
    bytes: &[u8],
    eye: (u16, u16, i32),
) -> String {
    let spot = spot(rt, (eye.0, eye.1));
    let metres = metres(rt, eye.2);
    let eye = Eye { spot, metres };
    said(rt, alloc, tile, bytes, &Question::View { eye })
}

#[test]
fn places_lie_in_their_tiles(rt: HostRuntime) {
    let corner = tile_at(9, 648000, 324000);
    assert_eq!(rt; (corner.z, corner.x, corner.y), (9, 512, 256));
    // The north pole is in the last row, and the last arc-second before 180 degrees east in the last column.
    let pole = tile_at(9, 0, 648000);
    assert_eq!(rt; (pole.z, pole.x, pole.y), (9, 0, 511));
    let last = tile_at(14, 1295999, 647999);
    assert_eq!(rt; (last.z, last.x, last.y), (14, 32767, 16383));
}

#[test]
fn height_of_a_flat_tile(rt: HostRuntime) {
    let text = height_at_place(&rt, rt.alloc(), &FLAT, 9, (648000, 324000));
    assert_eq!(rt; text.as_str(), "height 7/1 tile 9/512/256\n");
}

#[test]
fn profile_and_sight_over_a_ramp(rt: HostRuntime) {
    let tile = tile_at(9, 648000, 324000);
    let text = profile_between(&rt, rt.alloc(), tile, &RAMP, (0, 32767), (32767, 0));
    assert_eq!(rt;
        text.as_str(),
        "profile 9/512/256 points 3\n0/1 height 0/1\n1/2 height 7/2\n1/1 height 7/1\n"
    );
    let text = sight_between(&rt, rt.alloc(), tile, &RAMP, (0, 0, 0), (32767, 0, 7));
    assert_eq!(rt; text.as_str(), "clear\n");
    let text = sight_between(&rt, rt.alloc(), tile, &RAMP, (0, 0, 6), (32767, 0, 6));
    assert_eq!(rt;
        text.as_str(),
        "blocked at 1/1 triangle 0 ground 7/1 line 6/1\n"
    );
}

#[test]
fn views_over_a_ramp(rt: HostRuntime) {
    let tile = tile_at(9, 648000, 324000);
    let text = view_from(&rt, rt.alloc(), tile, &RAMP, (0, 0, 0));
    assert_eq!(rt;
        text.as_str(),
        "view 9/512/256 vertices 4 seen 4\n0\n1\n2\n3\n"
    );
    let text = view_from(&rt, rt.alloc(), tile, &RAMP, (0, 0, -1));
    assert_eq!(rt; text.as_str(), "view 9/512/256 vertices 4 seen 0\n");
}

#[test]
fn bytes_without_a_mesh_in_metres_are_refused(rt: HostRuntime) {
    let tile = tile_at(9, 648000, 324000);
    let bytes: [&[u8]; 3] = [&DOUBLE, &FRACTION, &[31, 139, 8]];
    let wanted = [
        "refused Q2 unsound slab-gap 0 32767 place 0\n",
        "refused Q1 not whole vertex 3\n",
        "refused M6 compressed\n",
    ];
    for (bytes, wanted) in bytes.iter().zip(&wanted) {
        let text = profile_between(&rt, rt.alloc(), tile, bytes, (0, 32767), (32767, 0));
        assert_eq!(rt; text.as_str(), *wanted);
    }
}

#[test]
fn heights_in_hills(rt: HostRuntime) {
    for (east, north, wanted) in [
        (648000, 324000, "height 133/1 tile 3/8/4\n"),
        (
            648010,
            324007,
            "height 1376742409693/10294776000 tile 3/8/4\n",
        ),
        (649800, 325800, "height 185275084/714915 tile 3/8/4\n"),
        (650123, 324001, "height 1040658367/8035200 tile 3/8/4\n"),
        (728999, 404999, "height 0/1 tile 3/8/4\n"),
    ] {
        let text = height_at_place(&rt, rt.alloc(), &HILLS, 3, (east, north));
        assert_eq!(rt; text.as_str(), wanted);
    }
}

#[test]
fn profiles_in_hills(rt: HostRuntime) {
    let tile = tile_at(3, 648000, 324000);
    for (from, to, wanted) in [
        (
            (0, 0),
            (32767, 30000),
            "profile 3/8/4 points 6\n0/1 height 133/1\n31/1875 height 15645994399/59576250\n\
             32766/62767 height 0/1\n4610/4681 height 0/1\n15105587/15318587 height 0/1\n\
             1/1 height 0/1\n",
        ),
        (
            (496, 496),
            (0, 0),
            "profile 3/8/4 points 2\n0/1 height 263/1\n1/1 height 133/1\n",
        ),
        (
            (0, 1),
            (700, 600),
            "profile 3/8/4 points 4\n0/1 height 66649/496\n1/101 height 844221/6262\n\
             495/599 height 2496294745/9516313\n1/1 height 4137779/15887\n",
        ),
    ] {
        let text = profile_between(&rt, rt.alloc(), tile, &HILLS, from, to);
        assert_eq!(rt; text.as_str(), wanted);
    }
}

#[test]
fn sights_in_hills(rt: HostRuntime) {
    let tile = tile_at(3, 648000, 324000);
    for (from, to, wanted) in [
        (
            (0, 0, 133),
            (32767, 32767, 0),
            "blocked at 16/1057 triangle 0 ground 263/1 line 19779/151\n",
        ),
        (
            (0, 0, 132),
            (1000, 1000, 500),
            "blocked at 0/1 triangle 0 ground 133/1 line 132/1\n",
        ),
        ((496, 496, 263), (0, 0, 133), "clear\n"),
        (
            (0, 300, -5),
            (900, 10, 700),
            "blocked at 0/1 triangle 6 ground 67567/124 line -5/1\n",
        ),
        (
            (5, 7, 1000),
            (32000, 31000, -65535),
            "blocked at 163/10331 triangle 0 ground 43147060695/164128597 line -514205/10331\n",
        ),
    ] {
        let text = sight_between(&rt, rt.alloc(), tile, &HILLS, from, to);
        assert_eq!(rt; text.as_str(), wanted);
    }
}

#[test]
fn views_in_hills(rt: HostRuntime) {
    let tile = tile_at(3, 648000, 324000);
    for (eye, wanted) in [
        (
            (0, 0, 500),
            "view 3/8/4 vertices 14 seen 8\n0\n1\n2\n3\n4\n5\n8\n13\n",
        ),
        (
            (32767, 32767, 0),
            "view 3/8/4 vertices 14 seen 9\n1\n2\n3\n4\n5\n6\n7\n8\n13\n",
        ),
    ] {
        let text = view_from(&rt, rt.alloc(), tile, &HILLS, eye);
        assert_eq!(rt; text.as_str(), wanted);
    }
}

#[test]
fn heights_in_valleys(rt: HostRuntime) {
    for (east, north, wanted) in [
        (673200, 489600, "height 19489514/44685 tile 3/8/6\n"),
        (675321, 490111, "height 42632640787/80433000 tile 3/8/6\n"),
        (674999, 491234, "height 54397259917/80433000 tile 3/8/6\n"),
        (720000, 555000, "height 0/1 tile 3/8/6\n"),
    ] {
        let text = height_at_place(&rt, rt.alloc(), &VALLEYS, 3, (east, north));
        assert_eq!(rt; text.as_str(), wanted);
    }
}

#[test]
fn profiles_in_valleys(rt: HostRuntime) {
    let tile = tile_at(3, 673200, 489600);
    for (from, to, wanted) in [
        (
            (1, 2),
            (32766, 5000),
            "profile 3/8/6 points 21\n0/1 height 0/1\n1/27767 height 0/1\n247/2499 height 0/1\n\
             17738705/74994819 height 0/1\n8438/32765 height 0/1\n\
             7944/27767 height 11720233514/27572631\n12904/37763 height 1879410070/3408969\n\
             2482/6553 height 0/1\n11916/27767 height 0/1\n16876/37763 height 0/1\n\
             16382/32765 height 0/1\n15888/27767 height 0/1\n24820/37763 height 0/1\n\
             24326/32765 height 0/1\n47330599/55147761 height 0/1\n32763/37763 height 0/1\n\
             32269/32765 height 0/1\n276511280/278987841 height 0/1\n\
             536804384/539273001 height 0/1\n75525559/75700754 height 0/1\n1/1 height 0/1\n",
        ),
        (
            (10000, 2000),
            (20000, 2000),
            "profile 3/8/6 points 8\n0/1 height 678304/993\n907/10000 height 678304/993\n\
             2411/10000 height 0/1\n783/2000 height 0/1\n4879/10000 height 0/1\n\
             6383/10000 height 0/1\n7887/10000 height 0/1\n1/1 height 0/1\n",
        ),
    ] {
        let text = profile_between(&rt, rt.alloc(), tile, &VALLEYS, from, to);
        assert_eq!(rt; text.as_str(), wanted);
    }
}

#[test]
fn sights_in_valleys(rt: HostRuntime) {
    let tile = tile_at(3, 673200, 489600);
    for (from, to, wanted) in [
        ((0, 0, 0), (32767, 32767, 0), "clear\n"),
        (
            (9000, 3000, 40),
            (14000, 1500, 80),
            "blocked at 0/1 triangle 25 ground 84337/331 line 40/1\n",
        ),
        (
            (12000, 1000, 65535),
            (12001, 1001, -1),
            "blocked at 1/1 triangle 23 ground 184910/993 line -1/1\n",
        ),
    ] {
        let text = sight_between(&rt, rt.alloc(), tile, &VALLEYS, from, to);
        assert_eq!(rt; text.as_str(), wanted);
    }
}

#[test]
fn views_in_valleys(rt: HostRuntime) {
    let tile = tile_at(3, 673200, 489600);
    for (eye, wanted) in [(
        (12000, 1500, 300),
        "view 3/8/6 vertices 40 seen 26\n3\n4\n5\n6\n7\n8\n9\n10\n11\n14\n20\n21\n22\n23\n\
             25\n26\n27\n30\n31\n32\n33\n34\n35\n36\n37\n39\n",
    )] {
        let text = view_from(&rt, rt.alloc(), tile, &VALLEYS, eye);
        assert_eq!(rt; text.as_str(), wanted);
    }
}
