// The cell of an HGT file.
ghost use Rattle.std.specs.Prelude.{◌≡◌, IfOk};
ghost use Rattle.dted_cell.specs.Cell.{IsCell};
ghost use Rattle.dted_write.specs.Cell.{columns_from};
ghost use Rattle.hgt_cells.specs.File.{level_in};
ghost use Rattle.hgt_cells.specs.Cell.{hgt_post, hgt_cell_text};

use crate::HgtView;
use dted_write::write_cell;
use std::alloc::Global;
use terrain_base::NoMemory;

/// The DTED cell of the square and the samples of an HGT file: level 1 for 1201 lines and level 2 for 3601, with every
/// sample that stands on a meridian of the square's zone. Memory is taken for the cell and one record of it.
pub fn to_cell(alloc: Global, view: &HgtView<'_>) -> Result<Vec<u8>, NoMemory>
    ensures text { IfOk result (λ text. text.items ≡ hgt_cell_text view.now.square view.now.bytes.now) }
    ensures cell { IfOk result (λ text. IsCell text.items view.now.square (level_in view.now.bytes.now)
        (columns_from view.now.square (level_in view.now.bytes.now) (hgt_post view.now.square view.now.bytes.now))) }
{
    let text = write_cell(alloc, view)?;
    Ok(text)
}
