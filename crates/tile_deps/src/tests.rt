// Which tiles touch a square, which squares a tile, and which tiles exist. Expected values are another program's.
use crate::{DepIndex, ExistingTiles};
use std::alloc::Global;
use std::test::Fail;
use terrain_base::{CellLevel, Square, Summary, TileId};

// A cell of this square and level.
fn cell(lon: u16, lat: u16, level: CellLevel) -> Result<Summary, Fail> {
    let square = Square::of(lon, lat).ok_or("square")?;
    Ok(Summary {
        square,
        level,
        extremes: None,
    })
}

// The tiles of level z among those that touch the square, as columns and rows, and how many touch it in all.
fn touched_at(
    alloc: Global,
    lon: u16,
    lat: u16,
    cap: u8,
    z: u8,
) -> Result<(Vec<(u32, u32)>, u64), Fail> {
    let square = Square::of(lon, lat).ok_or("square")?;
    let index = DepIndex::of(alloc, &[], cap.min(14))?;
    let mut of_level = Vec::new(alloc);
    let mut count: u64 = 0;
    for tile in index.touched(square) {
        count = count.saturating_add(1);
        if tile.z == z {
            of_level.push((tile.x, tile.y))?;
        }
    }
    Ok((of_level, count))
}

#[test]
fn touched_tiles_of_a_square_on_the_equator(rt: HostRuntime) -> Result<(), Fail> {
    let (of_level, count) = touched_at(rt.alloc(), 180, 90, 9, 9)?;
    let mut expected = Vec::new(rt.alloc());
    for row in 255..259u32 {
        for column in 511..515u32 {
            expected.push((column, row))?;
        }
    }
    assert_eq!(rt; count, 55);
    assert_eq!(rt; of_level.as_slice(), expected.as_slice());
    Ok(())
}

#[test]
fn touched_tiles_from_both_sides_of_the_antimeridian(rt: HostRuntime) -> Result<(), Fail> {
    let (of_level, count) = touched_at(rt.alloc(), 0, 90, 9, 8)?;
    let expected = [
        (0, 127),
        (1, 127),
        (511, 127),
        (0, 128),
        (1, 128),
        (511, 128),
        (0, 129),
        (1, 129),
        (511, 129),
    ];
    assert_eq!(rt; count, 55);
    assert_eq!(rt; of_level.as_slice(), expected.as_slice());
    Ok(())
}

#[test]
fn touched_tiles_at_the_poles(rt: HostRuntime) -> Result<(), Fail> {
    let (of_level, count) = touched_at(rt.alloc(), 0, 0, 6, 6)?;
    assert_eq!(rt; count, 14);
    assert_eq!(rt; of_level.as_slice(), [(0, 0), (127, 0)].as_slice());
    let (_, south) = touched_at(rt.alloc(), 0, 0, 14, 14)?;
    let (_, north) = touched_at(rt.alloc(), 359, 179, 14, 14)?;
    let (_, between) = touched_at(rt.alloc(), 187, 136, 14, 14)?;
    assert_eq!(rt; south, 11502);
    assert_eq!(rt; north, 11502);
    assert_eq!(rt; between, 11487);
    Ok(())
}

#[test]
fn cells_of_a_tile_are_given_once(rt: HostRuntime) -> Result<(), Fail> {
    let cells = [
        cell(180, 90, CellLevel::Two)?,
        cell(180, 90, CellLevel::Zero)?,
        cell(183, 90, CellLevel::Zero)?,
        cell(179, 91, CellLevel::One)?,
    ];
    let index = DepIndex::of(rt.alloc(), &cells, 9)?;
    let tile = TileId::of(9, 512, 258).ok_or("tile")?;
    let squares: Vec<Square> = index.cells_of(tile).collect(rt.alloc())?;
    assert_eq!(rt;
        squares.as_slice(),
        [cells[0].square, cells[3].square].as_slice()
    );
    Ok(())
}

#[test]
fn existing_tiles_are_as_many_as_their_count(rt: HostRuntime) -> Result<(), Fail> {
    let cells = [cell(187, 136, CellLevel::One)?];
    let mut count: u64 = 0;
    let mut before: Option<TileId> = None;
    for tile in ExistingTiles::of(rt.alloc(), &cells, 12)? {
        assert!(rt; before < Some(tile));
        before = Some(tile);
        count = count.saturating_add(1);
    }
    assert_eq!(rt; count, 815);
    assert_eq!(rt; before, TileId::of(12, 4278, 3117));
    Ok(())
}
