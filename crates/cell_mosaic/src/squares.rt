// A short list of squares, in place.
ghost use Rattle.std.specs.Prelude.{◌≡◌, ◌<◌, ◌≤◌, [], ◌∷◌, ◌++◌, length, slice_index_or};

use std::marker::Model;
use terrain_base::Square;

/// At most four squares, in order. It is seen as the list of them.
#[derive(Debug, Drop)]
pub struct SquareList {
    room: [Square; 4],
    count: u8,
}

impl Model for SquareList {
    ghost use Rattle.std.specs.Prelude.{List, ◌≤◌, ◌≡◌, length, take};
    ghost use Rattle.terrain_base.specs.declared.square.Square.{Square};

    ghost Value = { List Square };

    ghost view = { λ s. take s.count s.room };

    ghost invariant = { λ s. (s.count ≤ 4) × (length s.room ≡ 4) };
}

impl SquareList {
    /// A list of none.
    pub(crate) fn new() -> SquareList
        ensures { result ≡ [] }
    {
        SquareList {
            room: [Square { lat: 0, lon: 0 }; 4],
            count: 0,
        }
    }

    /// One square more.
    pub(crate) fn push(&mut self, square: Square)
        requires { length self.old < 4 }
        ensures { self.new ≡ self.old ++ square ∷ [] }
    {
        self.room[self.count as usize] = square;
        self.count += 1;
    }

    /// How many squares there are.
    pub fn count(&self) -> u8
        ensures value { result ≡ length self.now }
        ensures few { result ≤ 4 }
    {
        self.count
    }

    /// The square of this number, counted from 0.
    pub fn at(&self, k: u8) -> Square
        requires { k < length self.now }
        ensures { result ≡ slice_index_or self.now k result }
    {
        self.room[k as usize]
    }
}
