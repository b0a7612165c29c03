// The squares that hold a place.
ghost use Rattle.std.specs.Prelude.{◌≡◌, ◌<◌, ◌≤◌, ◌+◌, ◌++◌, length, IsTrue};
ghost use Rattle.tms_tree.specs.Place.{IsPlace};
ghost use Rattle.dted_cell.specs.Header.{square_of};
ghost use Rattle.cell_mosaic.specs.Candidates.{candidates_of, where_it_is};

use crate::SquareList;
use terrain_base::Square;
use tms_tree::Place;

/// The square at these degrees, longitudes modulo 360.
fn square_at(lon: u64, lat: u64) -> Square
    requires { lat < 180 }
    ensures { result ≡ square_of lon lat }
{
    Square {
        lat: lat as u16,
        lon: (lon % 360) as u16,
    }
}

/// Adds the square at these degrees where it is a candidate.
fn add_where(list: &mut SquareList, is_candidate: bool, lon: u64, lat: u64)
    requires room { length list.old < 4 }
    requires lat { IsTrue is_candidate → lat < 180 }
    ensures value { list.new ≡ list.old ++ where_it_is is_candidate lon lat }
    ensures length { length list.new ≤ length list.old + 1 }
{
    if is_candidate {
        list.push(square_at(lon, lat));
    }
}

/// The squares whose closed rectangle holds the place, longitudes modulo 360: the square of its degrees rounded down,
/// then where its longitude is whole the one west of it, where its latitude is whole the one south of it, and where
/// both are whole the one south-west of it, as far as there are such squares.
#[tactic(auto, unfolding(crate::specs::Candidates::candidates_of))]
pub fn candidates(place: Place) -> SquareList
    requires { IsPlace place }
    ensures value { result ≡ candidates_of place }
    ensures few { length result ≤ 4 }
{
    let lon = 180 * place.p / place.d;
    let lat = 180 * place.q / place.d;
    let meridian = 180 * place.p % place.d == 0;
    let parallel = 180 * place.q % place.d == 0;
    let south = lat.saturating_sub(1);
    let mut list = SquareList::new();
    add_where(&mut list, lat < 180, lon, lat);
    add_where(&mut list, meridian && lat < 180, lon + 359, lat);
    add_where(&mut list, parallel && 0 < lat, lon, south);
    add_where(&mut list, meridian && parallel && 0 < lat, lon + 359, south);
    list
}
