//! Cells and tiles by their bytes.
use dted_write::{PostGrid, write_cell};
use std::alloc::{AllocError, Global};
use std::test::Fail as Stopped;
use terrain_base::{CellLevel, Post, Square, SureLibrary};

// A level 0 cell: what its header says, how many meridians it has, and the word of all posts but one.
#[derive(Clone, Copy)]
pub(crate) struct Sample {
    pub(crate) origin: [u8; 16],
    pub(crate) interval: [u8; 4],
    pub(crate) counts: [u8; 8],
    pub(crate) columns: u8,
    pub(crate) word: u16,
    pub(crate) other_at: (u8, u8),
    pub(crate) other_word: u16,
}

pub(crate) const FLAT: Sample = Sample {
    origin: *b"0000000E0000000N",
    interval: *b"0300",
    counts: *b"01210121",
    columns: 121,
    word: 0,
    other_at: (0, 0),
    other_word: 0,
};

impl Sample {
    fn header(&self, alloc: Global) -> Result<Vec<u8>, AllocError> {
        let mut bytes = Vec::new(alloc);
        bytes.extend_from_slice(b"UHL1")?;
        bytes.extend_from_slice(&self.origin)?;
        bytes.extend_from_slice(&self.interval)?;
        bytes.extend_from_slice(b"0300")?;
        bytes.resize(47, b' ')?;
        bytes.extend_from_slice(&self.counts)?;
        bytes.resize(80, b' ')?;
        bytes.extend_from_slice(b"DSI")?;
        bytes.resize(139, b' ')?;
        bytes.extend_from_slice(b"DTED0")?;
        bytes.resize(224, b' ')?;
        bytes.extend_from_slice(b"WGS84")?;
        bytes.resize(728, b' ')?;
        bytes.extend_from_slice(b"ACC")?;
        bytes.resize(3428, b' ')?;
        Ok(bytes)
    }

    fn record(&self, alloc: Global, column: u8) -> Result<Vec<u8>, AllocError> {
        let mut bytes = [0xAA, 0, 0, column, 0, column, 0, 0].to_vec(alloc)?;
        for row in 0..121u8 {
            let word = if self.other_at == (column, row) {
                self.other_word
            } else {
                self.word
            };
            bytes.extend_from_slice(&word.to_be_bytes())?;
        }
        let mut sum: u32 = 0;
        for byte in &bytes {
            sum = sum.wrapping_add(u32::from(*byte));
        }
        bytes.extend_from_slice(&sum.to_be_bytes())?;
        Ok(bytes)
    }

    pub(crate) fn bytes(&self, alloc: Global) -> Result<Vec<u8>, AllocError> {
        let mut bytes = self.header(alloc)?;
        for column in 0..self.columns {
            bytes.extend_from_slice(&self.record(alloc, column)?)?;
        }
        Ok(bytes)
    }
}

// A cell that is so many metres high everywhere, at a corner as its header says it.
pub(crate) fn flat(origin: &[u8; 16], metres: u16) -> Sample {
    Sample {
        origin: *origin,
        word: metres,
        other_word: metres,
        ..FLAT
    }
}

// The same in the zone beside a pole, where meridians stand six times as far apart.
pub(crate) fn polar(origin: &[u8; 16], metres: u16) -> Sample {
    Sample {
        interval: *b"1800",
        counts: *b"00210121",
        columns: 21,
        ..flat(origin, metres)
    }
}

// A library of cells by name.
pub(crate) fn library(alloc: Global, cells: &[(&str, Sample)]) -> Result<SureLibrary, Stopped> {
    let mut files = SureLibrary::new(alloc);
    for (name, sample) in cells {
        files.hold(name, &sample.bytes(alloc)?)?;
    }
    Ok(files)
}

// The level 1 cell at n00e000 that is so many metres high everywhere, or void.
pub(crate) fn level_one(alloc: Global, metres: Option<u8>) -> Result<Vec<u8>, Stopped> {
    let square = Square::read(b"n00e000").ok_or("square")?;
    let post = match metres {
        Some(metres) => Post::Metres(i16::from(metres)),
        None => Post::Void,
    };
    let posts = PostGrid::filled(alloc, square, CellLevel::One, post)?;
    let bytes = write_cell(alloc, &posts)?;
    Ok(bytes)
}

// The words of 16 bits, the lowest byte first.
fn words_of_16(bytes: &mut Vec<u8>, words: &[u16]) -> Result<(), AllocError> {
    for word in words {
        bytes.extend_from_slice(&word.to_le_bytes())?;
    }
    Ok(())
}

// The tile of a flat square: nine vertices and twelve triangles.
pub(crate) fn flat_tile(alloc: Global) -> Result<Vec<u8>, AllocError> {
    let mut bytes = vec![in alloc; 0u8; 88]?;
    bytes.extend_from_slice(&[9, 0, 0, 0])?;
    words_of_16(
        &mut bytes,
        &[0, 64540, 63547, 64542, 993, 994, 65533, 992, 31774],
    )?;
    words_of_16(&mut bytes, &[0, 992, 0, 991, 64540, 994, 0, 993, 31773])?;
    words_of_16(&mut bytes, &[0; 9])?;
    bytes.extend_from_slice(&[12, 0, 0, 0])?;
    words_of_16(
        &mut bytes,
        &[
            0, 0, 0, 3, 0, 3, 1, 0, 4, 2, 0, 2, 0, 0, 4, 2, 4, 3, 8, 6, 1, 8, 1, 2, 0, 7, 8, 1, 8,
            5, 1, 5, 2, 1, 2, 7,
        ],
    )?;
    for pair in [[0, 6], [0, 3], [3, 5], [6, 5]] {
        bytes.extend_from_slice(&[2, 0, 0, 0])?;
        words_of_16(&mut bytes, &pair)?;
    }
    Ok(bytes)
}

// A tile of two triangles and heights from 0 metres to a greatest one, which is given by its four bytes: the number of
// its vertices, the codes of their two coordinates and heights, and those of the triangles' corners.
fn two_triangles(
    alloc: Global,
    greatest: &[u8; 4],
    count: u8,
    u: &[u16],
    v: &[u16],
    heights: &[u16],
    corners: &[u16; 6],
) -> Result<Vec<u8>, AllocError> {
    let mut bytes = vec![in alloc; 0u8; 28]?;
    bytes.extend_from_slice(greatest)?;
    bytes.resize(88, 0)?;
    bytes.extend_from_slice(&[count, 0, 0, 0])?;
    words_of_16(&mut bytes, u)?;
    words_of_16(&mut bytes, v)?;
    words_of_16(&mut bytes, heights)?;
    bytes.extend_from_slice(&[2, 0, 0, 0])?;
    words_of_16(&mut bytes, corners)?;
    words_of_16(&mut bytes, &[0; 8])?;
    Ok(bytes)
}

// A tile of four vertices of height 0 in the corners of its square, and two triangles: the codes of the second
// coordinate and of the triangles' corners. The first coordinate goes from 0 to 32767 and back.
pub(crate) fn four_corners(
    alloc: Global,
    v: &[u16; 4],
    corners: &[u16; 6],
) -> Result<Vec<u8>, AllocError> {
    let u: [u16; 4] = [0, 65534, 0, 65533];
    two_triangles(alloc, &[0; 4], 4, &u, v, &[0; 4], corners)
}

// The codes of heights that rise from the west to the east, and of the corners of two triangles: on both sides of a
// diagonal, or twice the one south-east of it.
pub(crate) const SLOPE: [u16; 4] = [0, 65534, 0, 65533];

pub(crate) const HALVES: [u16; 6] = [0, 0, 0, 3, 1, 0];

pub(crate) const TWICE: [u16; 6] = [0, 0, 0, 3, 2, 1];

// A tile of heights from 0 to 7 metres, the greatest code being 7 metres. Its vertices go from the south-west corner
// counter-clockwise.
pub(crate) fn seven_metres(
    alloc: Global,
    heights: &[u16; 4],
    corners: &[u16; 6],
) -> Result<Vec<u8>, AllocError> {
    let u: [u16; 4] = [0, 65534, 0, 65533];
    let v: [u16; 4] = [0, 0, 65534, 0];
    two_triangles(alloc, &[0, 0, 0xE0, 0x40], 4, &u, &v, heights, corners)
}

// The slope, and 7 metres below it in the south-east corner a vertex of no triangle.
pub(crate) fn slope_over_vertex(alloc: Global) -> Result<Vec<u8>, AllocError> {
    let u: [u16; 5] = [0, 65534, 0, 65533, 65534];
    let v: [u16; 5] = [0, 0, 65534, 0, 65533];
    let heights: [u16; 5] = [0, 65534, 0, 65533, 0];
    two_triangles(alloc, &[0, 0, 0xE0, 0x40], 5, &u, &v, &heights, &HALVES)
}
