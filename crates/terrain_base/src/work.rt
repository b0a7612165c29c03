// A counter of made tiles.
ghost use Rattle.std.specs.Prelude.{◌≡◌};
ghost use Rattle.terrain_base.specs.Work.{Ticked};

use std::marker::Model;

/// How many tiles were made. The count ends at 2^64 - 1.
#[derive(Debug, Drop)]
pub struct Work {
    tiles: u64,
}

impl Model for Work {
    ghost use Rattle.std.specs.Prelude.{ℕ, ◌^◌, ◌<◌};

    ghost Value = { ℕ };

    ghost view = { λ w. w.tiles };

    ghost invariant = { λ w. w.tiles < 2 ^ 64 };
}

impl Work {
    /// A counter at 0.
    pub fn new() -> Work
        ensures { result ≡ 0 }
    {
        Work { tiles: 0 }
    }

    /// How many tiles were made.
    pub fn tiles(&self) -> u64
        ensures { result ≡ self.now }
    {
        self.tiles
    }

    /// Counts one more.
    pub fn tick(&mut self)
        ensures { Ticked self.old self.new }
    {
        self.tiles = self.tiles.saturating_add(1);
    }
}
