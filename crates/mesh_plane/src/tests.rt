ghost use Rattle.std.specs.Prelude.{pos, ◌*ℤ◌, ◌≤ℤ◌};
ghost use Rattle.mesh_plane.specs.Plane.{IsCounterClockwise, IsScale, IsTilePoint, IsTileTri};
ghost use Rattle.mesh_plane.specs.Surface.{gap_over, gap_under};

use super::*;

// Whether the triangle holds the point, the gap's two numbers, and the gap rounded up.
fn answers(tri: &Tri, scale: i64, u: i64, v: i64, metres: i32) -> (bool, i128, i128, u32)
    requires tri { IsTileTri tri.now }
    requires scale { IsScale scale }
    requires point { IsTilePoint scale u v }
    requires counter_clockwise { IsCounterClockwise tri.now }
    requires small { gap_over tri.now scale u v metres ≤ℤ (pos 4294967295 *ℤ gap_under tri.now scale) }
{
    let gap = height_gap(tri, scale, u, v, metres);
    (
        within(tri, scale, u, v),
        gap.over,
        gap.under,
        ceil_gap(&gap),
    )
}

// The corners (0, 0), (12, 0) and (3, 9) are 100, -40 and 700 m high. The heights of the plane at the points
// were worked out as exact fractions, apart from the program.
#[test]
fn points_on_corners_sides_and_insides(rt: HostRuntime) {
    let a = Corner { u: 0, v: 0, h: 100 };
    let b = Corner {
        u: 12,
        v: 0,
        h: -40,
    };
    let c = Corner { u: 3, v: 9, h: 700 };
    let tri = Tri { a, b, c };
    assert_eq!(rt; answers(&tri, 1, 0, 0, 100), (true, 0, 108, 0));
    assert_eq!(rt; answers(&tri, 1, 12, 0, 0), (true, 4320, 108, 40));
    assert_eq!(rt; answers(&tri, 3, 9, 27, -5), (true, 228420, 324, 705));
    assert_eq!(rt; answers(&tri, 2, 12, 0, 31), (true, 216, 216, 1));
    assert_eq!(rt; answers(&tri, 1, 6, 6, 10), (true, 47880, 108, 444));
    assert_eq!(rt;
        answers(&tri, 7, 14, 42, 65535),
        (true, 49166460, 756, 65035)
    );
    assert_eq!(rt; answers(&tri, 1, 4, 2, 55), (true, 15060, 108, 140));
    assert_eq!(rt; answers(&tri, 5, 22, 11, -300), (true, 272100, 540, 504));
    assert_eq!(rt;
        answers(&tri, 1000, 3999, 2001, 120),
        (true, 8048880, 108000, 75)
    );
    assert_eq!(rt;
        answers(&tri, 648000, 1944000, 2592001, 0),
        (true, 24300007620, 69984000, 348)
    );
    assert_eq!(rt; answers(&tri, 1, 7, 6, 12), (false, 46404, 108, 430));
    assert_eq!(rt; answers(&tri, 2, 25, 0, 7), (false, 11412, 216, 53));
}
