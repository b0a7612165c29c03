// Tiles over made-up cells, against the bytes of another program.
ghost use Rattle.std.specs.Prelude.{◌≡◌, false, IsTrue};
ghost use Rattle.std.specs.FinSet.{contains};
ghost use Rattle.terrain_base.specs.CellKey.{key_at};
ghost use Rattle.cell_mosaic.specs.Whole.{shapes_of};
ghost use Rattle.dted_write.specs.Post.{IsPost};

use super::*;
use cell_mosaic::{PostSource, WholeCells};
use dted_cell::CellBytes;
use dted_write::{PostGrid, generate, write_cell};
use std::alloc::Global;
use terrain_base::{
    CellLevel, Extremes, Params, Post, Square, Summary, SureStore, TileId, Work, columns,
    level_number, rows,
};

/// What the posts of a cell are made by.
#[derive(Clone, Copy)]
enum Ground {
    /// So many metres everywhere.
    Flat(i16),
    /// 1000 metres round every other grid point of the tiles of level 7, and 0 round the others.
    Checks,
    /// Slopes that rise steeply to the east and to the north, and fall back by 2001 metres.
    Slopes,
    /// Gentler ones, with voids in squares of ten posts.
    Holes,
}

/// A cell by its square's degrees east of 180 degrees west and north of the south pole, its level, and its ground.
type Plot = (u16, u16, CellLevel, Ground);

/// A tile over cells, of which a finer one comes behind the coarser ones of its square; its note, and its terrain's
/// length and hash.
#[derive(Clone, Copy)]
struct Case {
    plots: &'static [Plot],
    tile: (u8, u32, u32),
    note: &'static [u8],
    length: usize,
    hash: u64,
}

/// The eastern cell has the meridian that both share, but the western one's posts there count in the bound.
const CELLS_THAT_DISAGREE: Case = Case {
    plots: &[
        (179, 90, CellLevel::Zero, Ground::Flat(0)),
        (180, 90, CellLevel::Zero, Ground::Flat(30)),
    ],
    tile: (9, 511, 256),
    note: b"bound 30 tolerance 16 vertices 21 triangles 24 horizon 257\n",
    length: 422,
    hash: 0x3a61_fffd_8a13_b335,
};

/// A tile without cells, a flat one, the densest one, and tiles over a cell with voids, over two levels of a square,
/// and at both sides of the antimeridian.
const CASES: [Case; 7] = [
    Case {
        plots: &[],
        tile: (0, 0, 0),
        note: b"bound 0 tolerance 8192 vertices 9 triangles 12 horizon none\n",
        length: 254,
        hash: 0x1c5c_62bf_e2bb_cbbc,
    },
    Case {
        plots: &[(180, 90, CellLevel::Zero, Ground::Flat(0))],
        tile: (9, 512, 256),
        note: b"bound 0 tolerance 16 vertices 9 triangles 12 horizon 257\n",
        length: 254,
        hash: 0xa54f_1f3c_8c76_6752,
    },
    Case {
        plots: &[
            (180, 90, CellLevel::Zero, Ground::Checks),
            (181, 90, CellLevel::Zero, Ground::Checks),
            (180, 91, CellLevel::Zero, Ground::Checks),
            (181, 91, CellLevel::Zero, Ground::Checks),
        ],
        tile: (7, 128, 64),
        note: b"bound 1000 tolerance 64 vertices 4489 triangles 8712 horizon 257\n",
        length: 79_854,
        hash: 0x7a28_c1d5_8e79_b8e8,
    },
    Case {
        plots: &[(200, 100, CellLevel::Zero, Ground::Holes)],
        tile: (8, 284, 142),
        note: b"bound 1422 tolerance 32 vertices 1472 triangles 2908 horizon 257\n",
        length: 26_468,
        hash: 0x2fff_5999_cda3_11b6,
    },
    Case {
        plots: &[
            (180, 170, CellLevel::Zero, Ground::Slopes),
            (180, 170, CellLevel::One, Ground::Holes),
        ],
        tile: (8, 256, 242),
        note: b"bound 1958 tolerance 32 vertices 4134 triangles 8108 horizon 257\n",
        length: 73_888,
        hash: 0x7cf1_5436_6ce9_7b78,
    },
    Case {
        plots: &ANTIMERIDIAN,
        tile: (8, 0, 142),
        note: b"bound 3410 tolerance 32 vertices 3233 triangles 6378 horizon 257\n",
        length: 57_958,
        hash: 0x44da_f363_bbc2_fe58,
    },
    Case {
        plots: &ANTIMERIDIAN,
        tile: (8, 511, 142),
        note: b"bound 3410 tolerance 32 vertices 595 triangles 1150 horizon 257\n",
        length: 10_666,
        hash: 0x572e_d7aa_e3c7_1b28,
    },
];

/// Cells on both sides of it, each with the other's meridian at its border.
const ANTIMERIDIAN: [Plot; 2] = [
    (0, 100, CellLevel::Zero, Ground::Slopes),
    (359, 100, CellLevel::Zero, Ground::Flat(3000)),
];

/// The hash FNV-1a of bytes.
fn hash(bytes: &[u8]) -> u64 {
    let mut hash: u64 = 0xcbf2_9ce4_8422_2325;
    for byte in bytes {
        hash = (hash ^ u64::from(*byte)).wrapping_mul(0x100_0000_01b3);
    }
    hash
}

/// The text of a cell of level 0 that has this height everywhere.
fn flat_text(alloc: Global, square: Square) -> Option<Vec<u8>> {
    let posts = PostGrid::filled(alloc, square, CellLevel::Zero, Post::Metres(500)).ok()?;
    write_cell(alloc, &posts).ok()
}

/// A source of one cell.
fn one_cell(alloc: Global, text: Vec<u8>) -> Option<WholeCells> {
    let cell = CellBytes::check(text).ok()?;
    let mut cells = WholeCells::new(alloc);
    if cells.shape(cell.view().square()).is_some() {
        return None;
    }
    cells.put(cell).ok()?;
    Some(cells)
}

/// The files of a tile over a fill of 0, where one tile was counted.
fn files_of(
    alloc: Global,
    cells: &mut WholeCells,
    summaries: &[Summary],
    tile: TileId,
) -> Option<TileFiles> {
    let mut store = SureStore::new(alloc);
    let params = Params::of(14, 0)?;
    let mut work = Work::new();
    let made = make_tile(
        alloc, cells, &mut store, summaries, &params, tile, &mut work,
    );
    if work.tiles() == 1 { made.ok() } else { None }
}

/// The rest of a number by 2001, less 500 metres.
fn slope(number: u32) -> Post
    ensures { IsPost result }
{
    Post::Metres((number % 2001) as i16 - 500)
}

/// The post of a column and a row. It is found by how many columns of level 0 lie between it and 180 degrees west, and
/// how many rows between it and the south pole; at other levels by the same numbers.
fn post(ground: Ground, square: Square, col: u16, row: u16) -> Post
    ensures { IsPost result }
{
    let east = 120 * u32::from(square.lon()) + u32::from(col);
    let north = 120 * u32::from(square.lat()) + u32::from(row);
    match ground {
        Ground::Flat(metres) => Post::Metres(metres.clamp(-16_000, 16_000)),
        // Grid points of level 7 are 900 / 352 posts from each other.
        Ground::Checks if ((352 * east + 450) / 900 + (352 * north + 450) / 900) % 2 == 1 =>
            Post::Metres(1000),
        Ground::Checks => Post::Metres(0),
        Ground::Slopes => slope(210 * east + 90 * north),
        Ground::Holes if east / 10 % 4 == north / 10 % 4 => Post::Void,
        Ground::Holes => slope(6 * east + 15 * north),
    }
}

/// Sets the posts of a column.
fn fill(posts: &mut PostGrid, col: u16, ground: Ground) {
    for row in 0..rows(posts.level()) {
        let post = post(ground, posts.square(), col, row);
        if col < columns(posts.square(), posts.level()) && row < rows(posts.level()) {
            posts.set(col, row, post);
        }
    }
}

/// The text of the cell of this ground.
fn ground_text(alloc: Global, square: Square, level: CellLevel, ground: Ground) -> Option<Vec<u8>> {
    let mut posts = PostGrid::filled(alloc, square, level, Post::Void).ok()?;
    for col in 0..columns(square, level) {
        fill(&mut posts, col, ground);
    }
    write_cell(alloc, &posts).ok()
}

/// Whether the square has no cell of this level, nor a finer one.
fn is_free(cells: &WholeCells, square: Square, level: CellLevel) -> bool
    ensures { IsTrue result → contains (shapes_of cells.now.cells.entries) (key_at square level) ≡ false }
{
    match cells.shape(square) {
        Some(finest) => level_number(finest) < level_number(level),
        None => true,
    }
}

/// The cell of a plot in short, which is added to the others.
fn add(alloc: Global, cells: &mut WholeCells, plot: Plot) -> Option<Summary> {
    let (lon, lat, level, ground) = plot;
    let text = ground_text(alloc, Square::of(lon, lat)?, level, ground)?;
    let cell = CellBytes::check(text).ok()?;
    let view = cell.view();
    let (square, level, extremes) = (view.square(), view.level(), view.extremes());
    if !is_free(cells, square, level) {
        return None;
    }
    cells.put(cell).ok()?;
    Some(Summary {
        square,
        level,
        extremes,
    })
}

/// The files of a tile over its plots.
fn files_over(alloc: Global, case: &Case) -> Option<TileFiles> {
    let mut cells = WholeCells::new(alloc);
    let mut summaries = Vec::new(alloc);
    for plot in case.plots {
        summaries.push(add(alloc, &mut cells, *plot)?).ok()?;
    }
    let (z, x, y) = case.tile;
    files_of(alloc, &mut cells, &summaries, TileId::of(z, x, y)?)
}

#[test]
fn tile_of_a_flat_cell_has_its_files(rt: HostRuntime) {
    let square = Square::of(200, 100).expect(&rt, "a square");
    let text = flat_text(rt.alloc(), square).expect(&rt, "memory");
    let mut cells = one_cell(rt.alloc(), text).expect(&rt, "a cell");
    let summary = Summary {
        square,
        level: CellLevel::Zero,
        extremes: Some(Extremes {
            least: 500,
            greatest: 500,
        }),
    };
    let tile = TileId::of(0, 1, 0).expect(&rt, "a tile");
    let files = files_of(rt.alloc(), &mut cells, &[summary], tile).expect(&rt, "memory");
    assert_eq!(rt;
        &files.note[..],
        b"bound 500 tolerance 8192 vertices 9 triangles 12 horizon none\n".as_slice()
    );
    assert_eq!(rt; files.terrain.len(), 254);
    assert_eq!(rt; hash(&files.terrain), 0x14dc_7a1d_9293_4487);
}

#[test]
fn tile_of_a_generated_cell_has_its_files(rt: HostRuntime) {
    let square = Square::of(200, 100).expect(&rt, "a square");
    let text = generate(rt.alloc(), 7, square, CellLevel::Zero)
        .ok()
        .expect(&rt, "memory");
    let mut cells = one_cell(rt.alloc(), text).expect(&rt, "a cell");
    let tile = TileId::of(8, 284, 142).expect(&rt, "a tile");
    let files = files_of(rt.alloc(), &mut cells, &[], tile).expect(&rt, "memory");
    assert_eq!(rt;
        &files.note[..],
        b"bound 1092 tolerance 32 vertices 1398 triangles 2762 horizon 257\n".as_slice()
    );
    assert_eq!(rt; files.terrain.len(), 25_144);
    assert_eq!(rt; hash(&files.terrain), 0x47a7_8dcd_827a_2e52);
}

#[test]
fn tile_of_cells_that_disagree_has_its_frame_and_its_files(rt: HostRuntime) {
    let files = files_over(rt.alloc(), &CELLS_THAT_DISAGREE).expect(&rt, "memory");
    assert_eq!(rt; &files.note[..], CELLS_THAT_DISAGREE.note);
    assert_eq!(rt; files.terrain.len(), CELLS_THAT_DISAGREE.length);
    assert_eq!(rt; hash(&files.terrain), CELLS_THAT_DISAGREE.hash);
    // The least and the greatest height of the frame, 0 and 31 metres, as floats of 32 bits.
    assert_eq!(rt;
        &files.terrain[24..32],
        [0, 0, 0, 0, 0, 0, 0xF8, 0x41].as_slice()
    );
}

#[test]
fn tiles_have_their_files(rt: HostRuntime) {
    for case in CASES {
        let files = files_over(rt.alloc(), &case).expect(&rt, "memory");
        let (z, x, y) = case.tile;
        assert_eq!(rt; &files.note[..], case.note, "{z}/{x}/{y}");
        assert_eq!(rt; files.terrain.len(), case.length, "{z}/{x}/{y}");
        assert_eq!(rt; hash(&files.terrain), case.hash, "{z}/{x}/{y}");
    }
}
