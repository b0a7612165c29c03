// The key of a cell. It stands alone here: what its name is stands in `name`.
ghost use Rattle.std.specs.Prelude.{◌≡◌, IsTrue};
ghost use Rattle.std.proofs.Common.{rules};
ghost use Rattle.std.specs.Cmp.{partial_order_from_own_ties};
ghost use Rattle.std.specs.Cmp.Rules.{comparing};
ghost use Rattle.std.specs.Ordering.{eq_by_cmp, as_partial_cmp, is_lt};
ghost use Rattle.terrain_base.specs.CellKey.{key_cmp, rank_of, keys_total};

use crate::{CellLevel, Square};
use std::cmp::Ordering;

/// What a cell is kept under: its square and its level, so a square may have a cell of each level. Keys are ordered
/// by square, then level 2, 1, 0.
#[derive(Clone, Copy, Debug)]
pub struct CellKey {
    pub square: Square,
    pub level: CellLevel,
}

// The place of a level among those of its square.
fn rank(level: CellLevel) -> u8
    ensures { result ≡ rank_of level }
{
    match level {
        CellLevel::Two => 0,
        CellLevel::One => 1,
        CellLevel::Zero => 2,
    }
}

impl CellKey {
    /// Whether it comes before another key.
    pub fn precedes(&self, next: &CellKey) -> bool
        ensures { result ≡ is_lt (key_cmp self.now next.now) }
    {
        self.cmp(next).is_lt()
    }

    /// Whether it is this key.
    pub fn is(&self, other: &CellKey) -> bool
        ensures yes { IsTrue result → self.now ≡ other.now }
        ensures no { self.now ≡ other.now → IsTrue result }
    {
        if self.square.lat != other.square.lat || self.square.lon != other.square.lon {
            return false;
        }
        if rank(self.level) != rank(other.level) {
            return false;
        }
        true
    }
}

impl PartialEq for CellKey {
    ghost eq = { eq_by_cmp key_cmp };

    ghost laws = { Prim.search (comparing, keys_total, rules) };

    fn eq(&self, other: &CellKey) -> bool {
        self.cmp(other).is_eq()
    }
}

impl Eq for CellKey {
    ghost laws = { Prim.search (comparing, keys_total, rules) };
}

impl PartialOrd for CellKey {
    ghost partial_cmp = { as_partial_cmp key_cmp };

    ghost laws = { partial_order_from_own_ties (Prim.search (comparing, keys_total, rules))
        (Prim.search (comparing, rules)) };

    fn partial_cmp(&self, other: &CellKey) -> Option<Ordering> {
        Some(self.cmp(other))
    }
}

impl Ord for CellKey {
    ghost cmp = { key_cmp };

    ghost total = { keys_total };

    ghost matches_partial_cmp = { Prim.search (comparing, rules) };

    ghost matches_eq = { Prim.search (comparing, rules) };

    fn cmp(&self, other: &CellKey) -> Ordering {
        self.square
            .cmp(&other.square)
            .then(rank(self.level).cmp(&rank(other.level)))
    }
}
