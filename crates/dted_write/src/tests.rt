// Cells that are written and read again; numbers and bytes come from outside.
use crate::{PostGrid, generate, mix, write_cell};
use dted_cell::CellView;
use terrain_base::{CellLevel, Post, Square};

/// The two bytes at an offset.
fn pair(bytes: &[u8], at: usize) -> Option<(u8, u8)> {
    if at < 5000 && at + 1 < bytes.len() {
        Some((bytes[at], bytes[at + 1]))
    } else {
        None
    }
}

/// The post of a file at a column and a row.
fn post(bytes: &[u8], col: u16, row: u16) -> Option<Post> {
    let view = CellView::read(bytes).ok()?;
    if col < view.columns() && row < view.rows() {
        Some(view.post(col, row))
    } else {
        None
    }
}

/// How many meridians, posts on each and voids a file has.
fn counts(bytes: &[u8]) -> Option<(u16, u16, u32)> {
    let view = CellView::read(bytes).ok()?;
    Some((view.columns(), view.rows(), view.voids()))
}

#[test]
fn flat_cell_at_the_south_pole(rt: HostRuntime) {
    let square = Square::of(180, 0).expect(&rt, "s90e000");
    let posts = PostGrid::filled(rt.alloc(), square, CellLevel::Zero, Post::Metres(0)).expect(
        &rt, "memory",
    );
    let cell = write_cell(rt.alloc(), &posts).expect(&rt, "memory");
    assert_eq!(rt; cell.len(), 8762);
    assert_eq!(rt; counts(&cell), Some((21, 121, 0)));
}

#[test]
fn posts_are_signed_words(rt: HostRuntime) {
    let square = Square::of(173, 136).expect(&rt, "n46w007");
    let mut posts = PostGrid::filled(rt.alloc(), square, CellLevel::Zero, Post::Metres(0)).expect(
        &rt, "memory",
    );
    posts.set(0, 1, Post::Metres(-1));
    posts.set(0, 3, Post::Void);
    let cell = write_cell(rt.alloc(), &posts).expect(&rt, "memory");
    for (row, want) in [(0, (0, 0)), (1, (0x80, 1)), (2, (0, 0)), (3, (0xFF, 0xFF))] {
        assert_eq!(rt; pair(&cell, 3436 + 2 * row), Some(want));
    }
    assert_eq!(rt; pair(&cell, 10), Some((b'0', b'W')));
    assert_eq!(rt; post(&cell, 0, 1), Some(Post::Metres(-1)));
}

#[test]
fn first_numbers_of_the_mixing(rt: HostRuntime) {
    for (n, want) in [
        (0, 16_294_208_416_658_607_535),
        (1, 10_451_216_379_200_822_465),
        (u64::MAX, 16_490_336_266_968_443_936),
    ] {
        assert_eq!(rt; mix(n), want);
    }
}

#[test]
fn landscape_of_an_odd_number(rt: HostRuntime) {
    let square = Square::of(187, 136).expect(&rt, "n46e007");
    let cell = generate(rt.alloc(), 9, square, CellLevel::Zero).expect(&rt, "memory");
    assert_eq!(rt; counts(&cell), Some((121, 121, 196)));
    for (col, row, want) in [
        (0, 0, Post::Metres(1143)),
        (15, 15, Post::Metres(1689)),
        (16, 16, Post::Void),
        (77, 31, Post::Metres(1799)),
        (120, 120, Post::Metres(658)),
    ] {
        assert_eq!(rt; post(&cell, col, row), Some(want));
    }
}
