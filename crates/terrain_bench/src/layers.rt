// The layer text of scattered cells.

use availability::layer_text;
use std::alloc::Global;
use terrain_base::{CellLevel, NoMemory, Square, Summary};

// A cell at a square far from that of the number before, of one level after the other.
fn cell(k: u32) -> Option<Summary> {
    let level = match k % 3 {
        0 => CellLevel::Zero,
        1 => CellLevel::One,
        _ => CellLevel::Two,
    };
    let square = Square::of((k % 4096 * 7919 % 360) as u16, (k % 4096 * 67 % 180) as u16)?;
    Some(Summary {
        square,
        level,
        extremes: None,
    })
}

/// The layer text of so many scattered cells, to level 14.
pub(crate) fn text(alloc: Global, count: u32) -> Result<Vec<u8>, NoMemory> {
    let mut cells = Vec::new(alloc);
    for k in 0..count {
        if let Some(cell) = cell(k) {
            cells.push(cell)?;
        }
    }
    layer_text(alloc, &cells, 14)
}
