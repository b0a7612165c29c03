// Small meshes, and one that is too large, with their verdicts. Another program, which shares no code with this
// one, printed the expected verdicts.
use crate::{Finding, Verdict, audit};
use mesh_codec::CodeMesh;
use std::alloc::Global;
use terrain_base::NoMemory;

/// A mesh by its vertices `(u, v, height)` and its triangles, and the verdict on it.
#[derive(Clone, Copy)]
struct Case {
    vertices: &'static [(u16, u16, u16)],
    triangles: &'static [(u32, u32, u32)],
    verdict: Verdict,
}

const CASES: [Case; 19] = [
    // empty mesh
    Case {
        vertices: &[],
        triangles: &[],
        verdict: Verdict::Found(Finding::SlabGap {
            low: 0,
            high: 32767,
            place: 0,
        }),
    },
    // no triangle
    Case {
        vertices: &[(0, 0, 0), (5, 9, 0)],
        triangles: &[],
        verdict: Verdict::Found(Finding::SlabGap {
            low: 0,
            high: 9,
            place: 0,
        }),
    },
    // two triangles cover the square
    Case {
        vertices: &[(0, 0, 0), (32767, 0, 5), (32767, 32767, 9), (0, 32767, 7)],
        triangles: &[(0, 1, 2), (0, 2, 3)],
        verdict: Verdict::Good,
    },
    // fan round a point
    Case {
        vertices: &[
            (0, 0, 3),
            (32767, 0, 8),
            (11111, 22222, 32767),
            (32767, 32767, 1),
            (0, 32767, 9),
        ],
        triangles: &[(0, 1, 2), (1, 3, 2), (3, 4, 2), (4, 0, 2)],
        verdict: Verdict::Good,
    },
    // point on the diagonal, flat
    Case {
        vertices: &[
            (0, 0, 0),
            (32767, 0, 0),
            (16383, 16383, 0),
            (32767, 32767, 0),
            (0, 32767, 0),
        ],
        triangles: &[(0, 1, 2), (1, 3, 2), (0, 3, 4)],
        verdict: Verdict::Good,
    },
    // point on a level, flat
    Case {
        vertices: &[
            (0, 0, 0),
            (32767, 0, 0),
            (32767, 10000, 0),
            (0, 10000, 0),
            (12345, 10000, 0),
            (0, 32767, 0),
            (32767, 32767, 0),
        ],
        triangles: &[(0, 1, 2), (0, 2, 3), (3, 4, 5), (4, 6, 5), (4, 2, 6)],
        verdict: Verdict::Good,
    },
    // clockwise
    Case {
        vertices: &[(0, 0, 0), (32767, 32767, 0), (32767, 0, 0), (0, 32767, 0)],
        triangles: &[(0, 1, 2), (0, 1, 3)],
        verdict: Verdict::Found(Finding::NotCounterClockwise { triangle: 0 }),
    },
    // second clockwise
    Case {
        vertices: &[(0, 0, 0), (32767, 0, 0), (32767, 32767, 0), (0, 32767, 0)],
        triangles: &[(0, 1, 2), (0, 3, 2)],
        verdict: Verdict::Found(Finding::NotCounterClockwise { triangle: 1 }),
    },
    // overlap and hole
    Case {
        vertices: &[(0, 0, 0), (32767, 0, 0), (32767, 32767, 0), (0, 32767, 0)],
        triangles: &[(0, 1, 2), (0, 1, 2)],
        verdict: Verdict::Found(Finding::SlabGap {
            low: 0,
            high: 32767,
            place: 0,
        }),
    },
    // west side open
    Case {
        vertices: &[(0, 0, 0), (32767, 0, 0), (32767, 32767, 0)],
        triangles: &[(0, 1, 2)],
        verdict: Verdict::Found(Finding::SlabGap {
            low: 0,
            high: 32767,
            place: 0,
        }),
    },
    // east side open
    Case {
        vertices: &[(0, 0, 0), (32767, 32767, 0), (0, 32767, 0)],
        triangles: &[(0, 1, 2)],
        verdict: Verdict::Found(Finding::SlabGap {
            low: 0,
            high: 32767,
            place: 1,
        }),
    },
    // east strip open
    Case {
        vertices: &[(0, 0, 0), (32766, 0, 0), (32766, 32767, 0), (0, 32767, 0)],
        triangles: &[(0, 1, 2), (0, 2, 3)],
        verdict: Verdict::Found(Finding::SlabGap {
            low: 0,
            high: 32767,
            place: 2,
        }),
    },
    // crossing edges
    Case {
        vertices: &[(0, 0, 0), (32767, 0, 0), (0, 32767, 0), (32767, 32767, 0)],
        triangles: &[(0, 1, 2), (0, 1, 3), (1, 3, 2)],
        verdict: Verdict::Found(Finding::SlabGap {
            low: 0,
            high: 32767,
            place: 1,
        }),
    },
    // step below a gap
    Case {
        vertices: &[
            (0, 0, 0),
            (32767, 0, 0),
            (4681, 2, 7),
            (32767, 14, 0),
            (0, 14, 0),
        ],
        triangles: &[(0, 1, 2), (1, 3, 2), (0, 3, 4)],
        verdict: Verdict::Found(Finding::SlabGap {
            low: 14,
            high: 32767,
            place: 0,
        }),
    },
    // point on the diagonal, raised
    Case {
        vertices: &[
            (0, 0, 0),
            (32767, 0, 0),
            (16383, 16383, 7),
            (32767, 32767, 0),
            (0, 32767, 0),
        ],
        triangles: &[(0, 1, 2), (1, 3, 2), (0, 3, 4)],
        verdict: Verdict::Found(Finding::HeightGap {
            low: 0,
            high: 16383,
            place: 1,
        }),
    },
    // steps in two slabs
    Case {
        vertices: &[
            (0, 0, 0),
            (32767, 0, 0),
            (4681, 2, 7),
            (32767, 14, 0),
            (0, 14, 0),
            (9362, 18, 9),
            (32767, 28, 0),
            (0, 28, 0),
            (32767, 32767, 0),
            (0, 32767, 0),
        ],
        triangles: &[
            (0, 1, 2),
            (1, 3, 2),
            (0, 3, 4),
            (4, 3, 5),
            (3, 6, 5),
            (4, 6, 7),
            (7, 6, 8),
            (7, 8, 9),
        ],
        verdict: Verdict::Found(Finding::HeightGap {
            low: 0,
            high: 2,
            place: 1,
        }),
    },
    // step above a raised level
    Case {
        vertices: &[
            (0, 0, 0),
            (32767, 0, 0),
            (32767, 10000, 0),
            (0, 10000, 0),
            (12345, 10000, 3),
            (0, 32753, 0),
            (32767, 32753, 0),
            (4681, 32755, 7),
            (32767, 32767, 0),
            (0, 32767, 0),
        ],
        triangles: &[
            (0, 1, 2),
            (0, 2, 3),
            (3, 4, 5),
            (4, 6, 5),
            (4, 2, 6),
            (5, 6, 7),
            (6, 8, 7),
            (5, 8, 9),
        ],
        verdict: Verdict::Found(Finding::HeightGap {
            low: 32753,
            high: 32755,
            place: 1,
        }),
    },
    // point on a level, raised
    Case {
        vertices: &[
            (0, 0, 0),
            (32767, 0, 0),
            (32767, 10000, 0),
            (0, 10000, 0),
            (12345, 10000, 3),
            (0, 32767, 0),
            (32767, 32767, 0),
        ],
        triangles: &[(0, 1, 2), (0, 2, 3), (3, 4, 5), (4, 6, 5), (4, 2, 6)],
        verdict: Verdict::Found(Finding::LineDisagrees { v: 10000 }),
    },
    // raised on two levels
    Case {
        vertices: &[
            (0, 0, 0),
            (32767, 0, 0),
            (32767, 10000, 0),
            (0, 10000, 0),
            (100, 10000, 4),
            (0, 20000, 0),
            (32767, 20000, 0),
            (200, 20000, 6),
            (0, 32767, 0),
            (32767, 32767, 0),
        ],
        triangles: &[
            (0, 1, 2),
            (0, 2, 3),
            (3, 4, 5),
            (4, 2, 6),
            (4, 6, 5),
            (5, 7, 8),
            (7, 9, 8),
            (7, 6, 9),
        ],
        verdict: Verdict::Found(Finding::LineDisagrees { v: 10000 }),
    },
];

/// Adds a vertex, where there is room.
fn put_vertex(mesh: &mut CodeMesh, u: u16, v: u16, height: u16) -> Result<(), NoMemory> {
    if u <= 32767 && v <= 32767 && height <= 32767 && mesh.vertices() < 20000 {
        mesh.add_vertex(u, v, height)?;
    }
    Ok(())
}

/// Adds a triangle of vertices, where there is room.
fn put_triangle(mesh: &mut CodeMesh, a: u32, b: u32, c: u32) -> Result<(), NoMemory> {
    let count = mesh.vertices();
    if a < count && b < count && c < count && mesh.triangles().len() < 20000 {
        mesh.add_triangle(a, b, c)?;
    }
    Ok(())
}

/// The mesh of a case.
fn mesh_of(alloc: Global, case: &Case) -> Result<CodeMesh, NoMemory> {
    let mut mesh = CodeMesh::empty(alloc);
    for (u, v, height) in case.vertices {
        put_vertex(&mut mesh, *u, *v, *height)?;
    }
    for (a, b, c) in case.triangles {
        put_triangle(&mut mesh, *a, *b, *c)?;
    }
    Ok(mesh)
}

/// A mesh of vertices at one place.
fn heap(alloc: Global, count: u32) -> Result<CodeMesh, NoMemory> {
    let mut mesh = CodeMesh::empty(alloc);
    for _ in 0..count {
        put_vertex(&mut mesh, 0, 0, 0)?;
    }
    Ok(mesh)
}

#[test]
fn verdicts_are_those_of_another_program(rt: HostRuntime) {
    for case in &CASES {
        let mesh = mesh_of(rt.alloc(), case).expect(&rt, "memory");
        let verdict = audit(rt.alloc(), &mesh).expect(&rt, "memory");
        assert_eq!(rt; verdict, case.verdict);
    }
}

#[test]
fn more_than_16384_vertices_are_too_large(rt: HostRuntime) {
    let mesh = heap(rt.alloc(), 16385).expect(&rt, "memory");
    let verdict = audit(rt.alloc(), &mesh).expect(&rt, "memory");
    assert_eq!(rt;
        verdict,
        Verdict::Found(Finding::TooLarge { vertices: 16385 })
    );
    let mesh = heap(rt.alloc(), 16384).expect(&rt, "memory");
    let verdict = audit(rt.alloc(), &mesh).expect(&rt, "memory");
    assert_eq!(rt;
        verdict,
        Verdict::Found(Finding::SlabGap {
            low: 0,
            high: 32767,
            place: 0
        })
    );
}
