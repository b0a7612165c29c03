// A flat mesh under cells in short.
use super::*;
use std::alloc::Global;
use terrain_base::{CellLevel, Extremes, Grid, Square, Summary, TileId};
use tile_mesh::{TileMesh, mesh_of};

/// The mesh of a grid of zeros at level 7.
fn flat_mesh(alloc: Global) -> Option<TileMesh> {
    let grid = Grid::new(alloc).ok()?;
    mesh_of(alloc, &grid, 7).ok()
}

/// A cell at the south pole whose heights are from -5 to 30 metres.
fn low_and_high(longitude: u16) -> Option<Summary> {
    Some(Summary {
        square: Square::of(longitude, 0)?,
        level: CellLevel::Zero,
        extremes: Some(Extremes {
            least: -5,
            greatest: 30,
        }),
    })
}

#[test]
fn extremes_of_cells_that_touch_are_the_bound(rt: HostRuntime) {
    let mesh = flat_mesh(rt.alloc()).expect(&rt, "memory");
    let here = low_and_high(180).expect(&rt, "a square");
    let there = low_and_high(182).expect(&rt, "a square");
    let tile = TileId::of(7, 127, 0).expect(&rt, "a tile");
    assert_eq!(rt; span_bound(&[here, there], tile, &mesh), 30);
    assert_eq!(rt; span_bound(&[there], tile, &mesh), 0);
    assert_eq!(rt; span_bound(&[], tile, &mesh), 0);
}
