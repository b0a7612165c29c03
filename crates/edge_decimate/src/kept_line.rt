//! The kept points of an edge.

ghost use Rattle.std.specs.Prelude.{◌≡◌, suc, ◌<◌, ◌≤◌, ◌↔◌, IsTrue, Contains, length};
ghost use Rattle.edge_decimate.specs.KeptPoints.{kept_points};
ghost use Rattle.edge_decimate.specs.KeptLine.{first_from};

use crate::halving::mark;
use std::marker::Model;

/// The kept points of an edge, seen as the list of their indexes, ascending.
#[derive(Debug, Drop)]
pub struct KeptLine {
    bits: [bool; 67],
}

impl Model for KeptLine {
    ghost use Rattle.std.specs.Prelude.{◌≡◌, ℕ, List, slice_index_or, false, true};
    ghost use Rattle.edge_decimate.specs.KeptLine.{marked};

    ghost Value = { List ℕ };

    ghost view = { λ k. marked 0 k.bits };

    ghost invariant = { λ k. slice_index_or k.bits 66 false ≡ true };
}

/// The kept points of an edge: both its ends, and those at which it is halved until all heights strictly
/// between two neighbours are within `tol` metres of the straight line from one to the other.
///
/// The line has 67 heights, in metres. Straight is meant along the tile's units and not by indexes.
pub fn kept(line: &[i16], tol: u16) -> KeptLine
    requires { length line.now ≡ 67 }
    ensures { result ≡ kept_points line.now tol }
{
    let mut bits = [false; 67];
    bits[0] = true;
    mark(line, tol, 0, 66, &mut bits);
    bits[66] = true;
    KeptLine { bits }
}

impl KeptLine {
    /// Whether the point of this index is kept.
    pub fn has(&self, i: u8) -> bool
        ensures { IsTrue result ↔ Contains self.now i }
    {
        i <= 66 && self.bits[i as usize]
    }

    /// How many points are kept.
    pub fn count(&self) -> u8
        ensures { result ≡ length self.now }
    {
        self.bits.iter().filter(|bit| **bit).count() as u8
    }

    /// The index of the first kept point after `i`.
    pub fn after(&self, i: u8) -> u8
        requires { i < 66 }
        ensures value { result ≡ first_from (suc i) self.now }
        ensures kept { Contains self.now result }
        ensures later { i < result }
        ensures end { result ≤ 66 }
    {
        for k in i + 1..66 {
            if self.bits[k as usize] {
                return k;
            }
        }
        66
    }
}
