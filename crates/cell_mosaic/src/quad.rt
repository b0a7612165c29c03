// The posts round a place.
ghost use Rattle.std.specs.Prelude.{◌≡◌, ◌+◌, ◌*◌, ◌<◌, ◌≤◌, length, IsFalse};
ghost use Rattle.dted_cell.specs.Cell.{post_in, post_of_row};
ghost use Rattle.dted_cell.specs.Elevation.{IsPost};
ghost use Rattle.cell_mosaic.specs.Value.{unless_ignored, quad_round, ArePosts, HasRound};

use dted_cell::{CellBytes, ProfileView};
use terrain_base::Post;

/// The four posts of a cell round a place. Metres are within -16000 to 16000.
#[derive(Clone, Copy, Debug, PartialEq, Eq)]
pub struct Quad {
    /// The south-western one.
    pub sw: Post,
    /// The south-eastern one.
    pub se: Post,
    /// The north-western one.
    pub nw: Post,
    /// The north-eastern one.
    pub ne: Post,
}

/// The post of a row of a column, and the one north of it, or a void in its place where the point lies on the row.
fn side_of(profile: &ProfileView, row: u16, on_row: bool) -> (Post, Post)
    requires south { 2 * row + 2 ≤ length profile.now }
    requires north { IsFalse on_row → 2 * (row + 1) + 2 ≤ length profile.now }
    requires small { row < 3601 }
    ensures south { result.0 ≡ post_of_row profile.now row }
    ensures north { result.1 ≡ unless_ignored on_row (post_of_row profile.now (row + 1)) }
    ensures heights { IsPost result.0 × IsPost result.1 }
{
    let south = profile.post(row);
    if on_row {
        return (south, Post::Void);
    }
    (south, profile.post(row + 1))
}

/// The posts of the cell round a point. The south-western one is that of the column and the row; where the point lies
/// on the column or on the row, voids stand in place of those beyond. They are void, or metres within -16000 to 16000.
/// Posts of one column lie side by side, so at most two columns are looked up.
pub fn quad_of(cell: &CellBytes, col: u16, row: u16, on_column: bool, on_row: bool) -> Quad
    requires { HasRound cell.now col row on_column on_row }
    ensures value { result ≡ quad_round (post_in cell.now) col row on_column on_row }
    ensures height { ArePosts result }
{
    let view = cell.view();
    let (sw, nw) = side_of(&view.profile(col), row, on_row);
    if on_column {
        return Quad {
            sw,
            se: Post::Void,
            nw,
            ne: Post::Void,
        };
    }
    let (se, ne) = side_of(&view.profile(col + 1), row, on_row);
    Quad { sw, se, nw, ne }
}
