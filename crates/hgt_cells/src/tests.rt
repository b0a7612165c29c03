// Names, lengths and cells of HGT files; the numbers come from outside.
use crate::{HgtView, hgt_refusal_text, hgt_square, to_cell};
use dted_cell::CellView;
use std::alloc::Global;
use terrain_base::{NoMemory, Post, Square};

/// The degrees of a name's square.
fn degrees(name: &str) -> Option<(u16, u16)> {
    let square = hgt_square(name)?;
    Some((square.lon(), square.lat()))
}

/// The post of a cell at a column and a row.
fn post(bytes: &[u8], col: u16, row: u16) -> Option<Post> {
    let view = CellView::read(bytes).ok()?;
    if col < view.columns() && row < view.rows() {
        Some(view.post(col, row))
    } else {
        None
    }
}

/// The columns, the rows and the voids of a cell.
fn shape(bytes: &[u8]) -> Option<(u16, u16, u32)> {
    let view = CellView::read(bytes).ok()?;
    Some((view.columns(), view.rows(), view.voids()))
}

/// The bytes of 1201 lines.
const COARSE: usize = 2_884_802;

/// So many bytes 0.
fn zeros(alloc: Global, length: usize) -> Result<Vec<u8>, NoMemory> {
    Ok(vec![in alloc; 0; length]?)
}

/// Puts two bytes in the place of the k-th number.
fn put(file: &mut [u8], k: usize, number: [u8; 2]) {
    if k < 10_000_000 && 2 * k + 1 < file.len() {
        file[2 * k] = number[0];
        file[2 * k + 1] = number[1];
    }
}

#[test]
fn corners_of_names(rt: HostRuntime) {
    for (name, want) in [
        ("N46E007.hgt", Some((187, 136))),
        ("srtm/v3/s01w001.HGT", Some((179, 89))),
        ("N00W000.hgt", Some((180, 90))),
        ("S00E000.hgt", Some((180, 90))),
        ("n89e180.Hgt", Some((0, 179))),
        ("S90W180.hgt", Some((0, 0))),
        ("N90E007.hgt", None),
        ("S91E007.hgt", None),
        ("N46E181.hgt", None),
        ("N46E007.hgt/", None),
        ("N46/E007.hgt", None),
        ("xN46E007.hgt", None),
        ("x.hgt", None),
    ] {
        assert_eq!(rt; degrees(name), want);
    }
}

#[test]
fn file_of_zeros(rt: HostRuntime) {
    let file = zeros(rt.alloc(), COARSE).expect(&rt, "memory");
    for (name, length, columns) in [
        ("N46E007.hgt", 2_902_642, 1201),
        ("N60E007.hgt", 1_454_242, 601),
    ] {
        let square = hgt_square(name).expect(&rt, "a name");
        let view = HgtView::read(&file, square).expect(&rt, "a file");
        let cell = to_cell(rt.alloc(), &view).expect(&rt, "memory");
        assert_eq!(rt; cell.len(), length);
        assert_eq!(rt; shape(&cell), Some((columns, 1201, 0)));
    }
}

#[test]
fn lines_come_from_the_north(rt: HostRuntime) {
    let mut file = zeros(rt.alloc(), COARSE).expect(&rt, "memory");
    put(&mut file, 1201 + 2, [1, 44]);
    put(&mut file, 1200 * 1201, [0x80, 0]);
    let square = Square::of(187, 150).expect(&rt, "n60e007");
    let view = HgtView::read(&file, square).expect(&rt, "a file");
    let cell = to_cell(rt.alloc(), &view).expect(&rt, "memory");
    assert_eq!(rt; post(&cell, 1, 1199), Some(Post::Metres(300)));
    assert_eq!(rt; post(&cell, 0, 0), Some(Post::Void));
    assert_eq!(rt; post(&cell, 2, 1199), Some(Post::Metres(0)));
}

/// The hash FNV-1a of bytes.
fn hash(bytes: &[u8]) -> u64 {
    let mut hash: u64 = 0xcbf2_9ce4_8422_2325;
    for byte in bytes {
        hash = (hash ^ u64::from(*byte)).wrapping_mul(0x100_0000_01b3);
    }
    hash
}

/// Heights that leap about from -15000 to 15010 metres, with a void in 97 samples.
fn fill_with_leaps(file: &mut [u8]) {
    for k in 0..1_442_401_usize {
        let number = if k % 97 == 0 {
            -32_768
        } else {
            (k * 7919 % 30_011) as i16 - 15_000
        };
        put(file, k, number.to_be_bytes());
    }
}

#[test]
fn cell_of_leaps_and_voids(rt: HostRuntime) {
    let mut file = zeros(rt.alloc(), COARSE).expect(&rt, "memory");
    fill_with_leaps(&mut file);
    let square = hgt_square("S71W008.hgt").expect(&rt, "a name");
    let view = HgtView::read(&file, square).expect(&rt, "a file");
    let cell = to_cell(rt.alloc(), &view).expect(&rt, "memory");
    assert_eq!(rt; hash(&cell), 0x7187_4af6_b6ff_4bd2);
}

#[test]
fn length_is_refused_first(rt: HostRuntime) {
    let square = Square::of(187, 136).expect(&rt, "n46e007");
    let mut file = zeros(rt.alloc(), 100).expect(&rt, "memory");
    put(&mut file, 0, [0x7F, 0xFF]);
    let refusal = HgtView::read(&file, square).err().expect(&rt, "short");
    let text = hgt_refusal_text(rt.alloc(), &refusal).expect(&rt, "memory");
    assert_eq!(rt; text.as_str(), "H1 bad length 100");
}

#[test]
fn first_height_out_of_range_is_refused(rt: HostRuntime) {
    let square = Square::of(187, 136).expect(&rt, "n46e007");
    let mut file = zeros(rt.alloc(), COARSE).expect(&rt, "memory");
    put(&mut file, 3 * 1201 + 5, [0xC1, 0x7F]);
    put(&mut file, 4 * 1201, [0x3E, 0x81]);
    let refusal = HgtView::read(&file, square)
        .err()
        .expect(&rt, "out of range");
    let text = hgt_refusal_text(rt.alloc(), &refusal).expect(&rt, "memory");
    assert_eq!(rt; text.as_str(), "H2 height line 3 place 5 value -16001");
}
