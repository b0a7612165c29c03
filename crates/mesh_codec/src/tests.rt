// Tiles put together by hand, part by part, and what is read of them.
ghost use Rattle.std.specs.Prelude.{◌≡◌, ℕ, ◌≤◌, ◌++◌, ◌∷◌, [], List, IsTrue, IfSome};
ghost use Rattle.mesh_codec.specs.Mesh.{IsEncodable};
ghost use Rattle.terrain_base.specs.FirstUse.{IsByFirstUse};
ghost use Rattle.mesh_codec.specs.Text.{mark_after};

use crate::number::{put_double, put_long, put_short};
use crate::{Array, CodeMesh, Codes, Header, TileRefusal, TileView, encode};
use std::alloc::Global;
use terrain_base::{Indexes, NoMemory, Side};

/// The words of a tile of at most 65536 vertices.
#[derive(Clone, Copy)]
struct Plan {
    vertices: u32,
    arrays: &'static [u16],
    triangles: u32,
    codes: &'static [u16],
    west: &'static [u16],
    south: &'static [u16],
    east: &'static [u16],
    north: &'static [u16],
}

/// A tile at height 0: five vertices on its border and inside, twelve triangles.
const FLAT: Plan = Plan {
    vertices: 9,
    arrays: &[
        0, 64540, 63547, 64542, 993, 994, 65533, 992, 31774, 0, 992, 0, 991, 64540, 994, 0, 993,
        31773, 0, 0, 0, 0, 0, 0, 0, 0, 0,
    ],
    triangles: 12,
    codes: &[
        0, 0, 0, 3, 0, 3, 1, 0, 4, 2, 0, 2, 0, 0, 4, 2, 4, 3, 8, 6, 1, 8, 1, 2, 0, 7, 8, 1, 8, 5,
        1, 5, 2, 1, 2, 7,
    ],
    west: &[0, 6],
    south: &[0, 3],
    east: &[3, 5],
    north: &[6, 5],
};

/// Two triangles over four vertices.
const SQUARE: Plan = Plan {
    vertices: 4,
    arrays: &[0, 0, 0, 0, 0, 0, 0, 0, 0, 0, 0, 0],
    triangles: 2,
    codes: &[0, 0, 0, 3, 1, 0],
    west: &[],
    south: &[],
    east: &[],
    north: &[],
};

const HEADER: Header = Header {
    centre: [1, 2, 3],
    least: 4,
    greatest: 5,
    sphere_centre: [6, 7, 8],
    radius: 9,
    horizon: [10, 11, 12],
};

const VERTICES: [(u16, u16); 9] = [
    (0, 0),
    (32270, 496),
    (496, 496),
    (32767, 0),
    (32270, 32270),
    (32767, 32767),
    (0, 32767),
    (496, 32270),
    (16383, 16383),
];

const TRIANGLES: [(u32, u32, u32); 12] = [
    (0, 1, 2),
    (0, 3, 1),
    (3, 4, 1),
    (3, 5, 4),
    (6, 7, 4),
    (6, 4, 5),
    (0, 2, 7),
    (0, 7, 6),
    (8, 2, 1),
    (8, 1, 4),
    (8, 4, 7),
    (8, 7, 2),
];

fn put_words(out: &mut Vec<u8>, words: &[u16]) -> Result<(), NoMemory> {
    for word in words {
        put_short(out, *word)?;
    }
    Ok(())
}

fn put_list(out: &mut Vec<u8>, words: &[u16]) -> Result<(), NoMemory> {
    put_long(out, words.len().min(1000) as u32)?;
    put_words(out, words)
}

/// The bytes of a tile whose header counts from 1 on.
fn build(alloc: Global, plan: &Plan) -> Result<Vec<u8>, NoMemory> {
    let mut out = Vec::new(alloc);
    for n in [1, 2, 3] {
        put_double(&mut out, n)?;
    }
    put_long(&mut out, 4)?;
    put_long(&mut out, 5)?;
    for n in [6, 7, 8, 9, 10, 11, 12] {
        put_double(&mut out, n)?;
    }
    put_long(&mut out, plan.vertices)?;
    put_words(&mut out, plan.arrays)?;
    put_long(&mut out, plan.triangles)?;
    put_words(&mut out, plan.codes)?;
    put_list(&mut out, plan.west)?;
    put_list(&mut out, plan.south)?;
    put_list(&mut out, plan.east)?;
    put_list(&mut out, plan.north)?;
    Ok(out)
}

/// The refusal of bytes, if there is one.
fn refusal(bytes: &[u8]) -> Option<TileRefusal> {
    TileView::read(bytes).err()
}

/// The first bytes of a tile.
fn front(bytes: &[u8], length: usize) -> &[u8] {
    if length <= bytes.len() {
        &bytes[..length]
    } else {
        bytes
    }
}

/// Writes a byte over that at an offset.
fn put(bytes: &mut Vec<u8>, at: usize, byte: u8) {
    if at < bytes.len() {
        bytes[at] = byte;
    }
}

/// Whether a mesh may be encoded: its vertices are numbered by first use, each is used, and there are not
/// exactly 65536.
fn is_encodable(mesh: &CodeMesh) -> bool
    ensures { IsTrue result → IsEncodable mesh.now }
{
    let mut mark = 0;
    for triangle in mesh.triangles() {
        let Some(next) = mark_behind(mark, triangle) else {
            return false;
        };
        mark = next;
    }
    mark == mesh.vertices() && mark != 65536
}

/// The mark behind an index, where it is within the mark.
fn mark_over(mark: u32, index: u32) -> Option<u32>
    ensures within { IfSome result (λ next. index ≤ mark) }
    ensures mark { IfSome result (λ next. next ≡ mark_after mark index) }
{
    if index == mark {
        mark.checked_add(1)
    } else if index < mark {
        Some(mark)
    } else {
        None
    }
}

/// The mark behind a triangle, where its corners are within the marks.
fn mark_behind(mark: u32, triangle: &Indexes) -> Option<u32>
    ensures { IfSome result (λ next. (before : List ℕ) → IsByFirstUse mark before
        → IsByFirstUse next (((before ++ triangle.now.a ∷ []) ++ triangle.now.b ∷ []) ++ triangle.now.c ∷ [])) }
{
    let second = mark_over(mark, triangle.a)?;
    let third = mark_over(second, triangle.b)?;
    mark_over(third, triangle.c)
}

/// Adds a vertex at height 0, where it is one.
fn add_vertex(mesh: &mut CodeMesh, u: u16, v: u16) -> Result<(), NoMemory> {
    if u <= 32767 && v <= 32767 && mesh.vertices() < 100 {
        mesh.add_vertex(u, v, 0)?;
    }
    Ok(())
}

/// Adds a triangle, where its corners are vertices.
fn add_triangle(mesh: &mut CodeMesh, a: u32, b: u32, c: u32) -> Result<(), NoMemory> {
    let vertices = mesh.vertices();
    if a < vertices && b < vertices && c < vertices && mesh.triangles().len() < 100 {
        mesh.add_triangle(a, b, c)?;
    }
    Ok(())
}

/// Adds a vertex along an edge, where it is one.
fn add_edge(mesh: &mut CodeMesh, edge: Side, vertex: u32) -> Result<(), NoMemory> {
    if vertex < mesh.vertices() && mesh.edge(edge).len() < 100 {
        mesh.add_edge(edge, vertex)?;
    }
    Ok(())
}

/// The mesh of the flat tile.
fn flat_mesh(alloc: Global) -> Result<CodeMesh, NoMemory> {
    let mut mesh = CodeMesh::empty(alloc);
    for (u, v) in VERTICES {
        add_vertex(&mut mesh, u, v)?;
    }
    for (a, b, c) in TRIANGLES {
        add_triangle(&mut mesh, a, b, c)?;
    }
    for (edge, first, last) in [
        (Side::West, 0, 6),
        (Side::South, 0, 3),
        (Side::East, 3, 5),
        (Side::North, 6, 5),
    ] {
        add_edge(&mut mesh, edge, first)?;
        add_edge(&mut mesh, edge, last)?;
    }
    Ok(mesh)
}

#[test]
fn the_flat_tile_has_its_codes(rt: HostRuntime) {
    let bytes = build(rt.alloc(), &FLAT).expect(&rt, "memory");
    assert_eq!(rt; bytes.len(), 254);
    let view = TileView::read(&bytes).expect(&rt, "a tile");
    assert!(rt; view.header() == HEADER);
    assert_eq!(rt; view.vertices(), 9);
    assert_eq!(rt; view.triangle_count(), 12);
    let vertices: Vec<Codes> = view
        .vertex_codes()
        .collect(rt.alloc())
        .expect(&rt, "memory");
    for (codes, (u, v)) in vertices.iter().zip(VERTICES.iter()) {
        assert!(rt;
            *codes
                == Codes {
                    u: *u,
                    v: *v,
                    height: 0
                }
        );
    }
    let triangles: Vec<Indexes> = view.triangles().collect(rt.alloc()).expect(&rt, "memory");
    for (triangle, (a, b, c)) in triangles.iter().zip(TRIANGLES.iter()) {
        assert!(rt;
            *triangle
                == Indexes {
                    a: *a,
                    b: *b,
                    c: *c
                }
        );
    }
    for (edge, first, last) in [
        (Side::West, 0, 6),
        (Side::South, 0, 3),
        (Side::East, 3, 5),
        (Side::North, 6, 5),
    ] {
        let mut list = view.edge(edge);
        assert_eq!(rt; list.next(), Some(first));
        assert_eq!(rt; list.next(), Some(last));
        assert_eq!(rt; list.next(), None);
    }
    assert!(rt; view.extensions().next().is_none());
}

#[test]
fn a_mesh_is_rebuilt_and_encoded(rt: HostRuntime) {
    let bytes = build(rt.alloc(), &FLAT).expect(&rt, "memory");
    let view = TileView::read(&bytes).expect(&rt, "a tile");
    let mesh = view.to_mesh(rt.alloc()).expect(&rt, "memory");
    assert_eq!(rt; mesh.vertices(), 9);
    assert_eq!(rt; mesh.triangles().len(), 12);
    let flat = flat_mesh(rt.alloc()).expect(&rt, "memory");
    assert!(rt; mesh.triangles() == flat.triangles());
    assert!(rt; mesh.edge(Side::North) == flat.edge(Side::North));
    if is_encodable(&mesh) {
        let encoded = encode(rt.alloc(), &HEADER, &mesh).expect(&rt, "memory");
        assert!(rt; encoded.as_slice() == bytes.as_slice());
    } else {
        assert!(rt; false, "numbered by first use");
    }
}

#[test]
fn marks_rise_where_a_vertex_is_new(rt: HostRuntime) {
    let square = build(rt.alloc(), &SQUARE).expect(&rt, "memory");
    let view = TileView::read(&square).expect(&rt, "a tile");
    let mut triangles = view.triangles();
    assert!(rt; triangles.next() == Some(Indexes { a: 0, b: 1, c: 2 }));
    assert!(rt; triangles.next() == Some(Indexes { a: 0, b: 2, c: 3 }));
    assert!(rt; triangles.next() == None);
    let ahead = build(
        rt.alloc(),
        &Plan {
            codes: &[0, 0, 0, 4, 1, 0],
            ..SQUARE
        },
    )
    .expect(&rt, "memory");
    assert_eq!(rt;
        refusal(&ahead),
        Some(TileRefusal::IndexOutOfRange { k: 3 })
    );
    let few = Plan {
        vertices: 3,
        arrays: &[0, 0, 0, 0, 0, 0, 0, 0, 0],
        ..SQUARE
    };
    let beyond = build(rt.alloc(), &few).expect(&rt, "memory");
    assert_eq!(rt;
        refusal(&beyond),
        Some(TileRefusal::IndexOutOfRange { k: 5 })
    );
    let wrapped = build(
        rt.alloc(),
        &Plan {
            triangles: 1,
            codes: &[65535, 0, 0],
            ..SQUARE
        },
    )
    .expect(&rt, "memory");
    assert_eq!(rt;
        refusal(&wrapped),
        Some(TileRefusal::IndexOutOfRange { k: 0 })
    );
}

#[test]
fn indexes_of_many_vertices_are_aligned_to_four_bytes(rt: HostRuntime) {
    let mut bytes = vec![in rt.alloc(); 0u8; 393336].expect(&rt, "memory");
    put(&mut bytes, 88, 1);
    put(&mut bytes, 90, 1);
    let view = TileView::read(&bytes).expect(&rt, "a tile");
    assert_eq!(rt; view.vertices(), 65537);
    assert_eq!(rt; view.triangle_count(), 0);
    assert!(rt; view.extensions().next().is_none());
    let want = TileRefusal::Truncated {
        at: 393332,
        need: 4,
    };
    assert_eq!(rt; refusal(front(&bytes, 393335)), Some(want));
}

#[test]
fn each_part_is_refused_at_its_place(rt: HostRuntime) {
    let zeros = [0u8; 87];
    assert_eq!(rt;
        refusal(&zeros),
        Some(TileRefusal::Truncated { at: 0, need: 88 })
    );
    assert_eq!(rt; refusal(&[0x1F, 0x8B, 8, 0]), Some(TileRefusal::Compressed));
    let flat = build(rt.alloc(), &FLAT).expect(&rt, "memory");
    let cuts = [
        (91, 88, 4),
        (109, 92, 18),
        (127, 110, 18),
        (145, 128, 18),
        (149, 146, 4),
        (221, 150, 72),
        (225, 222, 4),
        (229, 226, 4),
        (253, 250, 4),
    ];
    for (length, at, need) in cuts {
        assert_eq!(rt;
            refusal(front(&flat, length)),
            Some(TileRefusal::Truncated { at, need })
        );
    }
    let changes = [
        (
            92,
            1,
            TileRefusal::CoordinateOutOfRange {
                array: Array::U,
                k: 0,
            },
        ),
        (
            112,
            1,
            TileRefusal::CoordinateOutOfRange {
                array: Array::V,
                k: 1,
            },
        ),
        (
            144,
            1,
            TileRefusal::CoordinateOutOfRange {
                array: Array::Height,
                k: 8,
            },
        ),
        (152, 9, TileRefusal::IndexOutOfRange { k: 1 }),
        (
            226,
            9,
            TileRefusal::EdgeIndexTooLarge {
                edge: Side::West,
                k: 0,
            },
        ),
        (
            252,
            9,
            TileRefusal::EdgeIndexTooLarge {
                edge: Side::North,
                k: 1,
            },
        ),
        (
            91,
            255,
            TileRefusal::Truncated {
                at: 92,
                need: 8556380178,
            },
        ),
    ];
    for (at, byte, want) in changes {
        let mut tile = build(rt.alloc(), &FLAT).expect(&rt, "memory");
        put(&mut tile, at, byte);
        assert_eq!(rt; refusal(&tile), Some(want));
    }
}

#[test]
fn extensions_go_to_the_end(rt: HostRuntime) {
    let mut bytes = build(rt.alloc(), &FLAT).expect(&rt, "memory");
    bytes
        .extend_from_slice(&[1, 2, 0, 0, 0, 7, 8])
        .expect(&rt, "memory");
    let view = TileView::read(&bytes).expect(&rt, "a tile");
    let mut extensions = view.extensions();
    let extension = extensions.next().expect(&rt, "an extension");
    assert_eq!(rt; extension.id, 1);
    assert!(rt; extension.bytes == [7u8, 8].as_slice());
    assert!(rt; extensions.next().is_none());
    let want = TileRefusal::ExtensionTruncated { at: 254 };
    assert_eq!(rt; refusal(front(&bytes, 260)), Some(want));
    assert_eq!(rt; refusal(front(&bytes, 258)), Some(want));
}
