// A column of a cell.
ghost use Rattle.std.specs.Prelude.{◌≡◌, ◌+◌, ◌*◌, ◌≤◌, length};
ghost use Rattle.dted_cell.specs.Cell.{AreElevations, post_of_row};
ghost use Rattle.dted_cell.specs.Elevation.{IsPost};

use crate::elevation::post;
use crate::field::word;
use std::marker::Model;
use terrain_base::Post;

/// The elevations of a column, where they lie. It is seen as their bytes: two for each row, from the
/// south on, a sign bit and 15 bits of metres, the highest first.
#[derive(Drop)]
pub struct ProfileView<'a> {
    elevations: &'a [u8],
}

impl<'a> Model for ProfileView<'a> {
    ghost use Rattle.std.specs.Prelude.{List, ℕ};

    ghost Value = { List ℕ };

    ghost view = { λ p. p.elevations.now };

    ghost use Rattle.dted_cell.specs.Cell.{AreElevations};

    ghost invariant = { λ p. AreElevations p.elevations.now };
}

impl<'a> ProfileView<'a> {
    // The view of elevations.
    pub(crate) fn of(elevations: &'a [u8]) -> ProfileView<'a>
        requires { AreElevations elevations.now }
        ensures { result ≡ elevations.now }
    {
        ProfileView { elevations }
    }

    /// The post of a row, from -16000 to 16000 metres where it is not void.
    pub fn post(&self, row: u16) -> Post
        requires { 2 * row + 2 ≤ length self.now }
        ensures value { result ≡ post_of_row self.now row }
        ensures range { IsPost result }
    {
        post(word(self.elevations, 2 * row as usize))
    }

    /// The elevations as they stand in the file.
    pub fn bytes(&self) -> &[u8]
        ensures { result.now ≡ self.now }
    {
        self.elevations
    }
}
