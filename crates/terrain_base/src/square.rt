// A square of one degree. It stands alone here: what its text is stands in `square_text`.
ghost use Rattle.std.specs.Prelude.{◌<◌};

/// A square of one degree of longitude and latitude, named by its south-west corner. Squares are
/// ordered by latitude, then longitude.
#[derive(Clone, Copy, Debug, PartialEq, Eq, PartialOrd, Ord)]
pub struct Square {
    /// Whole degrees north of the south pole, 0 to 179.
    pub lat: u16,
    /// Whole degrees east of 180 degrees west, 0 to 359.
    pub lon: u16,
    ghost lat_in_range: { lat < 180 },
    ghost lon_in_range: { lon < 360 },
}

impl Square {
    ghost use Rattle.std.specs.Prelude.{◌≡◌, ◌↔◌, IsSome, IfSome};

    /// The square at these degrees. `None` exactly where a number is out of range.
    pub fn of(lon: u16, lat: u16) -> Option<Square>
        ensures some { IsSome result ↔ ((lon < 360) × (lat < 180)) }
        ensures value { IfSome result (λ square. (square.lon ≡ lon) × (square.lat ≡ lat)) }
    {
        if lon < 360 && lat < 180 {
            Some(Square { lat, lon })
        } else {
            None
        }
    }

    /// Whole degrees east of 180 degrees west, 0 to 359.
    pub fn lon(&self) -> u16
        ensures { result ≡ self.now.lon }
    {
        self.lon
    }

    /// Whole degrees north of the south pole, 0 to 179.
    pub fn lat(&self) -> u16
        ensures { result ≡ self.now.lat }
    {
        self.lat
    }
}
