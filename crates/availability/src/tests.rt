// Counts, runs and layer texts of a few sets of cells. Expected values are another program's.
use crate::{RowRun, exists, layer_text, runs, tile_count};
use std::alloc::Global;
use std::test::Fail;
use terrain_base::{CellLevel, Square, Summary, TileId};

// A cell of this square and level.
fn cell(lon: u16, lat: u16, level: CellLevel) -> Result<Summary, Fail> {
    let square = Square::of(lon, lat).ok_or("square")?;
    Ok(Summary {
        square,
        level,
        extremes: None,
    })
}

#[test]
fn a_level_1_cell_makes_815_tiles(rt: HostRuntime) -> Result<(), Fail> {
    let cells = [cell(187, 136, CellLevel::One)?];
    assert_eq!(rt; tile_count(rt.alloc(), &cells, 12)?, 815);
    let list = runs(rt.alloc(), &cells, 12, 8)?;
    let north = RowRun {
        row: 194,
        start: 265,
        end: 267,
    };
    let south = RowRun { row: 193, ..north };
    assert_eq!(rt; list.as_slice(), [south, north].as_slice());
    Ok(())
}

// The level with this number, counted round.
fn level(k: u16) -> CellLevel {
    match k % 3 {
        0 => CellLevel::Zero,
        1 => CellLevel::One,
        _ => CellLevel::Two,
    }
}

// 300 cells of all levels, on squares all over the Earth.
fn scattered(alloc: Global) -> Result<Vec<Summary>, Fail> {
    let mut cells = Vec::new(alloc);
    for k in 0..300u16 {
        let place = k * 211;
        cells.push(cell(place % 360, place / 360, level(k))?)?;
    }
    Ok(cells)
}

// Three rows of three cells side by side.
fn block(alloc: Global) -> Result<Vec<Summary>, Fail> {
    let mut cells = Vec::new(alloc);
    for k in 0..9u16 {
        let column = k % 3;
        let row = k / 3;
        cells.push(cell(10 + column, 100 + row, level(column + row))?)?;
    }
    Ok(cells)
}

#[test]
fn cells_on_both_sides_of_the_antimeridian_have_runs_of_their_own(
    rt: HostRuntime,
) -> Result<(), Fail> {
    let cells = [
        cell(0, 90, CellLevel::Zero)?,
        cell(359, 90, CellLevel::Zero)?,
    ];
    let list = runs(rt.alloc(), &cells, 9, 9)?;
    let west = RowRun {
        row: 256,
        start: 0,
        end: 2,
    };
    let east = RowRun {
        row: 256,
        start: 1021,
        end: 1023,
    };
    assert_eq!(rt; list.len(), 6);
    assert_eq!(rt; list[0], west);
    assert_eq!(rt; list[1], east);
    let tile = TileId::of(9, 0, 255).ok_or("tile")?;
    assert!(rt; !exists(&cells, 9, tile));
    Ok(())
}

// FNV-1a of 64 bits.
fn hash(bytes: &[u8]) -> u64 {
    let mut hash: u64 = 0xcbf29ce484222325;
    for byte in bytes {
        hash = (hash ^ *byte as u64).wrapping_mul(0x100000001b3);
    }
    hash
}

#[test]
fn the_layer_of_no_cells_has_249_bytes(rt: HostRuntime) -> Result<(), Fail> {
    let text = layer_text(rt.alloc(), &[], 9)?;
    let stated =
        r#"{"available":[[{"endX":1,"endY":0,"startX":0,"startY":0}]],"bounds":[-180,-90,180,90],"format":"quantized-mesh-1.0","maxzoom":0,"minzoom":0,"projection":"EPSG:4326","scheme":"tms","tilejson":"2.1.0","tiles":["{z}/{x}/{y}.terrain"],"version":"1.0.0"}"#;
    assert_eq!(rt; text.len(), 249);
    assert_eq!(rt; text.as_slice(), stated.as_bytes());
    Ok(())
}

// Whether the layer text has this length and this hash.
fn is_layer(
    alloc: Global,
    cells: &[Summary],
    cap: u8,
    length: usize,
    expected: u64,
) -> Result<bool, Fail> {
    let text = layer_text(alloc, cells, cap)?;
    Ok(text.len() == length && hash(&text) == expected)
}

#[test]
fn layers_of_few_cells_agree_with_another_program(rt: HostRuntime) -> Result<(), Fail> {
    let alloc = rt.alloc();
    let one = [cell(187, 136, CellLevel::One)?];
    let beside = [
        cell(180, 90, CellLevel::Zero)?,
        cell(181, 90, CellLevel::Two)?,
    ];
    let at_a_corner = [
        cell(180, 90, CellLevel::Two)?,
        cell(179, 89, CellLevel::One)?,
    ];
    let antimeridian = [cell(0, 90, CellLevel::Two)?, cell(359, 90, CellLevel::One)?];
    assert!(rt; is_layer(alloc, &[], 14, 249, 0x6acbfc00f3e1bb53)?);
    assert!(rt; is_layer(alloc, &one, 12, 3242, 0x4e27c36bc111fbf2)?);
    assert!(rt; is_layer(alloc, &beside, 14, 10676, 0x03af62f30a1167d2)?);
    assert!(rt; is_layer(alloc, &at_a_corner, 14, 13438, 0xa591443759a09012)?);
    assert!(rt; is_layer(alloc, &antimeridian, 13, 7823, 0xf7854ccd516c4ad2)?);
    assert_eq!(rt; tile_count(alloc, &[], 14)?, 2);
    assert_eq!(rt; tile_count(alloc, &beside, 14)?, 11398);
    assert_eq!(rt; tile_count(alloc, &at_a_corner, 14)?, 12040);
    assert_eq!(rt; tile_count(alloc, &antimeridian, 13)?, 3576);
    Ok(())
}

#[test]
fn layers_at_the_poles_and_the_antimeridian_agree_with_another_program(
    rt: HostRuntime,
) -> Result<(), Fail> {
    let alloc = rt.alloc();
    let poles = [
        cell(0, 0, CellLevel::Two)?,
        cell(180, 0, CellLevel::Zero)?,
        cell(179, 179, CellLevel::One)?,
        cell(359, 179, CellLevel::Two)?,
    ];
    let shallow = [
        cell(0, 90, CellLevel::Zero)?,
        cell(359, 90, CellLevel::Zero)?,
    ];
    assert!(rt; is_layer(alloc, &poles, 14, 22751, 0xf8225cdc2a45f42)?);
    assert!(rt; is_layer(alloc, &shallow, 9, 1367, 0x61a97d1e8ba98a64)?);
    Ok(())
}

#[test]
fn layers_of_many_cells_agree_with_another_program(rt: HostRuntime) -> Result<(), Fail> {
    let alloc = rt.alloc();
    let cells = scattered(alloc)?;
    let block = block(alloc)?;
    assert!(rt; is_layer(alloc, &block, 11, 4958, 0x788474869d714845)?);
    assert!(rt; is_layer(alloc, &cells, 9, 157474, 0x3ee8f153d7189a1b)?);
    assert!(rt; is_layer(alloc, &cells, 12, 607137, 0x4cb98a4c808fabd3)?);
    assert_eq!(rt; tile_count(alloc, &block, 11)?, 1231);
    assert_eq!(rt; tile_count(alloc, &cells, 9)?, 8376);
    assert_eq!(rt; tile_count(alloc, &cells, 12)?, 160481);
    Ok(())
}
