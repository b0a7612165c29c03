// Heights over cells that slope, with and without voids, and over flat cells that disagree.
use super::*;
use cell_mosaic::{PostSource, WholeCells};
use dted_cell::CellBytes;
use std::alloc::{AllocError, Global};
use terrain_base::{Grid, SureStore, TileId, level_number};
use tms_tree::Place;

/// A cell, of whose posts each lies so much higher than the one west of it and the one south of it, modulo 2000 and
/// less 700 metres, and of which there are voids unless `void_every` is 0; from a column and from a row on, all are.
#[derive(Clone, Copy)]
struct Plan {
    uhl: &'static [u8],
    counts: &'static [u8],
    series: &'static [u8],
    columns: u16,
    rows: u16,
    base: u32,
    eastwards: u32,
    northwards: u32,
    void_every: u32,
    void_columns: u16,
    void_rows: u16,
}

const SLOPES: [Plan; 12] = [
    Plan {
        uhl: b"UHL10000000E0000000N03000300",
        counts: b"01210121",
        series: b"DTED0",
        columns: 121,
        rows: 121,
        base: 100,
        eastwards: 7,
        northwards: 3,
        void_every: 11,
        void_columns: 4000,
        void_rows: 4000,
    },
    Plan {
        uhl: b"UHL10010000W0000000N03000300",
        counts: b"01210121",
        series: b"DTED0",
        columns: 121,
        rows: 121,
        base: 900,
        eastwards: 5,
        northwards: 9,
        void_every: 7,
        void_columns: 4000,
        void_rows: 4000,
    },
    Plan {
        uhl: b"UHL10000000E0010000S03000300",
        counts: b"01210121",
        series: b"DTED0",
        columns: 121,
        rows: 121,
        base: 40,
        eastwards: 11,
        northwards: 2,
        void_every: 0,
        void_columns: 4000,
        void_rows: 4000,
    },
    Plan {
        uhl: b"UHL10000000E0900000S18000300",
        counts: b"00210121",
        series: b"DTED0",
        columns: 21,
        rows: 121,
        base: 300,
        eastwards: 13,
        northwards: 17,
        void_every: 9,
        void_columns: 4000,
        void_rows: 4000,
    },
    Plan {
        uhl: b"UHL10010000W0900000S18000300",
        counts: b"00210121",
        series: b"DTED0",
        columns: 21,
        rows: 121,
        base: 1500,
        eastwards: 3,
        northwards: 4,
        void_every: 0,
        void_columns: 4000,
        void_rows: 4000,
    },
    Plan {
        uhl: b"UHL10000000E0890000N18000300",
        counts: b"00210121",
        series: b"DTED0",
        columns: 21,
        rows: 121,
        base: 55,
        eastwards: 19,
        northwards: 6,
        void_every: 5,
        void_columns: 4000,
        void_rows: 4000,
    },
    Plan {
        uhl: b"UHL10010000W0890000N18000300",
        counts: b"00210121",
        series: b"DTED0",
        columns: 21,
        rows: 121,
        base: 660,
        eastwards: 2,
        northwards: 23,
        void_every: 0,
        void_columns: 4000,
        void_rows: 4000,
    },
    Plan {
        uhl: b"UHL11790000E0000000N03000300",
        counts: b"01210121",
        series: b"DTED0",
        columns: 121,
        rows: 121,
        base: 77,
        eastwards: 6,
        northwards: 5,
        void_every: 13,
        void_columns: 4000,
        void_rows: 4000,
    },
    Plan {
        uhl: b"UHL11800000W0000000N03000300",
        counts: b"01210121",
        series: b"DTED0",
        columns: 121,
        rows: 121,
        base: 1200,
        eastwards: 8,
        northwards: 1,
        void_every: 4,
        void_columns: 4000,
        void_rows: 4000,
    },
    Plan {
        uhl: b"UHL10000000E0790000N12000300",
        counts: b"00310121",
        series: b"DTED0",
        columns: 31,
        rows: 121,
        base: 400,
        eastwards: 31,
        northwards: 7,
        void_every: 6,
        void_columns: 4000,
        void_rows: 4000,
    },
    Plan {
        uhl: b"UHL10000000E0800000N00600010",
        counts: b"06013601",
        series: b"DTED2",
        columns: 601,
        rows: 3601,
        base: 10,
        eastwards: 1,
        northwards: 1,
        void_every: 17,
        void_columns: 4000,
        void_rows: 4000,
    },
    Plan {
        uhl: b"UHL10010000E0800000N18000300",
        counts: b"00210121",
        series: b"DTED0",
        columns: 21,
        rows: 121,
        base: 1000,
        eastwards: 29,
        northwards: 12,
        void_every: 0,
        void_columns: 4000,
        void_rows: 4000,
    },
];

const FLAT_WEST: Plan = Plan {
    uhl: b"UHL10010000W0000000N03000300",
    counts: b"01210121",
    series: b"DTED0",
    columns: 121,
    rows: 121,
    base: 700,
    eastwards: 0,
    northwards: 0,
    void_every: 0,
    void_columns: 4000,
    void_rows: 4000,
};

const FLAT_EAST: Plan = Plan {
    uhl: b"UHL10000000E0000000N03000300",
    base: 730,
    ..FLAT_WEST
};

/// Places, as the three numbers of each, and the height there over the slopes.
const HEIGHTS: [(u64, u64, u64, i16); 40] = [
    (2, 0, 2, -400),
    (2, 2, 2, 75),
    (0, 0, 1, -5),
    (1, 0, 1, -400),
    (1, 1, 1, 75),
    (2, 1, 2, -600),
    (16811189, 8426566, 16776704, -142),
    (16734762, 8404197, 16776704, 710),
    (16863384, 8342682, 16776704, 690),
    (43202, 21602, 43200, -5),
    (43201, 21602, 43200, -597),
    (43201, 21601, 43200, -600),
    (43203, 21605, 43200, -582),
    (43200, 21607, 43200, -589),
    (43209, 21600, 43200, -568),
    (43440, 21720, 43200, 420),
    (0, 21603, 43200, 502),
    (86400, 21603, 43200, 502),
    (1, 21606, 43200, 503),
    (86399, 21611, 43200, 122),
    (0, 21600, 43200, 500),
    (43231, 1, 43200, -344),
    (43100, 3, 43200, 841),
    (43231, 43199, 43200, 126),
    (43143, 43167, 43200, 371),
    (43200, 43195, 43200, 60),
    (43200, 5, 43200, -357),
    (648100, 612000, 648000, -673),
    (648003, 612001, 648000, -689),
    (648001, 612077, 648000, -613),
    (651600, 612120, 648000, 348),
    (651607, 612015, 648000, 307),
    (649801, 611987, 648000, 998),
    (651600, 612000, 648000, 300),
    (648000, 612009, 648000, -681),
    (538421872, 508029014, 536870912, 810),
    (539823699, 509162405, 536870909, 460),
    (1, 1, 3, -5),
    (42960, 21580, 43200, -5),
    (536944004, 506343296, 536854528, 375),
];

/// A cell of level 0 in the square n80e000, and one of level 1 west of it, whose last column is void.
const COARSEST: [Plan; 2] = [
    Plan {
        uhl: b"UHL10000000E0800000N18000300",
        counts: b"00210121",
        series: b"DTED0",
        columns: 21,
        rows: 121,
        base: 300,
        eastwards: 13,
        northwards: 17,
        void_every: 9,
        void_columns: 4000,
        void_rows: 4000,
    },
    Plan {
        uhl: b"UHL10010000W0800000N01800030",
        counts: b"02011201",
        series: b"DTED1",
        columns: 201,
        rows: 1201,
        base: 900,
        eastwards: 7,
        northwards: 2,
        void_every: 0,
        void_columns: 200,
        void_rows: 4000,
    },
];

/// Cells of levels 1 and 2 in n80e000. Level 2 has posts in the west alone, level 1 in the south alone.
const FINER: [Plan; 2] = [
    Plan {
        uhl: b"UHL10000000E0800000N01800030",
        counts: b"02011201",
        series: b"DTED1",
        columns: 201,
        rows: 1201,
        base: 1100,
        eastwards: 3,
        northwards: 5,
        void_every: 7,
        void_columns: 4000,
        void_rows: 600,
    },
    Plan {
        uhl: b"UHL10000000E0800000N00600010",
        counts: b"06013601",
        series: b"DTED2",
        columns: 601,
        rows: 3601,
        base: 40,
        eastwards: 2,
        northwards: 3,
        void_every: 11,
        void_columns: 300,
        void_rows: 4000,
    },
];

/// Places over 6480000, and the height there over the cells of several levels.
const HEIGHTS_OVER_LEVELS: [(u64, u64, i16); 40] = [
    (6488371, 6143497, 668),
    (6497369, 6121901, 489),
    (6495258, 6136322, 745),
    (6481700, 6130280, 481),
    (6483710, 6144366, 773),
    (6495371, 6136160, 700),
    (6492477, 6155636, 447),
    (6497940, 6120007, -60),
    (6497969, 6132000, -462),
    (6497970, 6132005, -462),
    (6497971, 6132010, -459),
    (6497999, 6140000, -62),
    (6498000, 6150010, -553),
    (6498000, 6129999, 370),
    (6498001, 6120005, 700),
    (6501351, 6128171, 118),
    (6498439, 6127102, -109),
    (6511384, 6129159, 447),
    (6503976, 6132762, 929),
    (6503239, 6122358, 1180),
    (6502557, 6134577, 1205),
    (6500000, 6137971, -272),
    (6500010, 6137985, -272),
    (6500011, 6137986, -272),
    (6510000, 6138000, 837),
    (6510005, 6138001, 841),
    (6502161, 6142343, 1026),
    (6498068, 6138184, 761),
    (6504873, 6145070, 1200),
    (6503444, 6143465, 1099),
    (6507489, 6148287, -599),
    (6504527, 6155679, -201),
    (6480000, 6120060, -642),
    (6480000, 6132345, 1044),
    (6479999, 6132345, 415),
    (6479910, 6120777, -355),
    (6479905, 6153333, -185),
    (6515999, 6155999, -100),
    (6516000, 6138003, 880),
    (6516000, 6150000, -440),
];

/// Tiles over them, and the sum of their heights, each times 1 to 31 in turn.
const SUMS_OVER_LEVELS: [(u8, u32, u32, i64); 3] = [
    (7, 128, 121, 7_814_753),
    (5, 31, 30, 489_924),
    (8, 256, 242, 23_171_865),
];

/// The word of a post, of sign and magnitude.
fn word(plan: &Plan, col: u16, row: u16) -> u16 {
    let (col, row) = (u32::from(col), u32::from(row));
    if plan.void_every > 0 && (col + 2 * row) % plan.void_every == 3 {
        return 0xFFFF;
    }
    if col >= u32::from(plan.void_columns) || row >= u32::from(plan.void_rows) {
        return 0xFFFF;
    }
    let east = plan.eastwards.wrapping_mul(col);
    let north = plan.northwards.wrapping_mul(row);
    let height = (plan.base.wrapping_add(east).wrapping_add(north) % 2000) as u16;
    if height >= 700 {
        height - 700
    } else {
        0x8000 | (700 - height)
    }
}

fn push_word(cell: &mut Vec<u8>, word: u16) -> Result<u32, AllocError> {
    let [high, low] = word.to_be_bytes();
    cell.push(high)?;
    cell.push(low)?;
    Ok(u32::from(high) + u32::from(low))
}

fn push_record(cell: &mut Vec<u8>, plan: &Plan, col: u16) -> Result<(), AllocError> {
    cell.push(0xAA)?;
    cell.push(0)?;
    let count = push_word(cell, col)?;
    let longitude = push_word(cell, col)?;
    let latitude = push_word(cell, 0)?;
    let mut sum = 170u32
        .wrapping_add(count)
        .wrapping_add(longitude)
        .wrapping_add(latitude);
    for row in 0..plan.rows {
        sum = sum.wrapping_add(push_word(cell, word(plan, col, row))?);
    }
    cell.extend_from_slice(&sum.to_be_bytes())
}

/// Writes bytes over those at an offset.
fn put(cell: &mut Vec<u8>, at: usize, text: &[u8]) {
    if at <= cell.len() && text.len() <= cell.len() - at {
        cell[at..at + text.len()].copy_from_slice(text);
    }
}

fn build(alloc: Global, plan: &Plan) -> Result<Vec<u8>, AllocError> {
    let mut cell = vec![in alloc; b' '; 3428]?;
    put(&mut cell, 0, plan.uhl);
    put(&mut cell, 47, plan.counts);
    put(&mut cell, 80, b"DSI");
    put(&mut cell, 139, plan.series);
    put(&mut cell, 224, b"WGS84");
    put(&mut cell, 728, b"ACC");
    for col in 0..plan.columns {
        push_record(&mut cell, plan, col)?;
    }
    Ok(cell)
}

/// Whether the plan's cell was added, to a square without cells.
fn add(alloc: Global, cells: &mut WholeCells, plan: &Plan) -> bool {
    let Ok(text) = build(alloc, plan) else {
        return false;
    };
    let Ok(cell) = CellBytes::check(text) else {
        return false;
    };
    if cells.shape(cell.view().square()).is_some() {
        return false;
    }
    cells.put(cell).is_ok()
}

/// Whether the plan's cell was added, to a square whose cells are all coarser.
fn add_finer(alloc: Global, cells: &mut WholeCells, plan: &Plan) -> bool {
    let Ok(text) = build(alloc, plan) else {
        return false;
    };
    let Ok(cell) = CellBytes::check(text) else {
        return false;
    };
    let view = cell.view();
    let square = view.square();
    let wanted = level_number(view.level());
    let Some(finest) = cells.shape(square) else {
        return false;
    };
    let found = level_number(finest);
    if wanted <= found {
        return false;
    }
    cells.put(cell).is_ok()
}

/// The height at the place of these numbers, over a fill of 5 metres below 0.
fn height_at(cells: &mut WholeCells, store: &mut SureStore, p: u64, q: u64, d: u64) -> Option<i16> {
    if d == 0 || d > 1 << 29 || p > 2 * d || q > d {
        return None;
    }
    match height(cells, store, -5, Place { p, q, d }) {
        Ok(metres) => Some(metres),
        Err(_) => None,
    }
}

#[test]
fn heights_over_slopes(rt: HostRuntime) {
    let mut cells = WholeCells::new(rt.alloc());
    for plan in SLOPES {
        assert!(rt; add(rt.alloc(), &mut cells, &plan));
    }
    let mut store = SureStore::new(rt.alloc());
    for (p, q, d, want) in HEIGHTS {
        let metres = height_at(&mut cells, &mut store, p, q, d);
        assert!(rt; metres == Some(want), "{p} {q} {d}");
    }
}

#[test]
fn of_cells_that_disagree_the_eastern_one_has_the_shared_meridian(rt: HostRuntime) {
    let mut cells = WholeCells::new(rt.alloc());
    assert!(rt; add(rt.alloc(), &mut cells, &FLAT_WEST));
    assert!(rt; add(rt.alloc(), &mut cells, &FLAT_EAST));
    let mut store = SureStore::new(rt.alloc());
    assert!(rt; height_at(&mut cells, &mut store, 2, 1, 2) == Some(30));
    let tile = TileId::of(9, 511, 256).expect(&rt, "a tile");
    let mut grid = Grid::new(rt.alloc()).ok().expect(&rt, "memory");
    let filled = tile_grid(&mut cells, &mut store, 0, tile, &mut grid);
    assert!(rt; filled.is_ok());
    for k in 0..4489u16 {
        let (i, j) = ((k % 67) as u8, (k / 67) as u8);
        let want = if i == 66 { 30 } else { 0 };
        assert!(rt; grid.get(i, j) == want, "{i} {j}");
    }
}

/// The sum of a grid's heights, each times 1 to 31 in turn.
fn sum(grid: &Grid) -> i64 {
    let mut sum: i64 = 0;
    for k in 0..4489u16 {
        let metres = i64::from(grid.get((k % 67) as u8, (k / 67) as u8));
        sum = sum.wrapping_add(metres.wrapping_mul(i64::from(k % 31 + 1)));
    }
    sum
}

#[test]
fn voids_of_a_finer_cell_are_filled_from_the_coarser_ones(rt: HostRuntime) {
    let mut cells = WholeCells::new(rt.alloc());
    for plan in COARSEST {
        assert!(rt; add(rt.alloc(), &mut cells, &plan));
    }
    for plan in FINER {
        assert!(rt; add_finer(rt.alloc(), &mut cells, &plan));
    }
    let mut store = SureStore::new(rt.alloc());
    for (p, q, want) in HEIGHTS_OVER_LEVELS {
        let metres = height_at(&mut cells, &mut store, p, q, 6_480_000);
        assert!(rt; metres == Some(want), "{p} {q}");
    }
    let mut grid = Grid::new(rt.alloc()).ok().expect(&rt, "memory");
    for (z, x, y, want) in SUMS_OVER_LEVELS {
        let tile = TileId::of(z, x, y).expect(&rt, "a tile");
        let filled = tile_grid(&mut cells, &mut store, -5, tile, &mut grid);
        assert!(rt; filled.is_ok());
        assert!(rt; sum(&grid) == want, "{z} {x} {y}");
    }
}
