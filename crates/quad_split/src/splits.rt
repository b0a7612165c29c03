//! The map of the nodes that are split.

ghost use Rattle.std.specs.Prelude.{◌≡◌, ℕ, suc, ◌/◌, ◌^◌, ◌<◌, ◌≤◌, length, not, ◌||◌, true};
ghost use Rattle.quad_split.specs.Node.{IsNode, level_of, column_of, row_of, is_node};
ghost use Rattle.quad_split.specs.Fits.{fits_at};
ghost use Rattle.quad_split.specs.Split.{touching};
ghost use Rattle.quad_split.specs.SplitMap.{bit_at, IsRight, IsSplitMap, IsRowFilled};

use crate::fit::fits;
use crate::node::{Node, is_place};
use std::marker::Model;
use terrain_base::Grid;

/// The bit of a node.
fn bit(bits: &[bool], k: u8, x: u8, y: u8) -> bool
    requires room { length bits.now ≡ 6144 }
    requires level { k ≤ 6 }
    ensures { result ≡ bit_at bits.now k x y }
{
    if k == 0 {
        return false;
    }
    if !is_place(k, x, y) {
        return false;
    }
    bits[1024 * (k as usize - 1) + 32 * y as usize + x as usize]
}

/// Whether a node of level `k` is split that lies in the node of the next level or beside it.
fn near_split(bits: &[bool], k: u8, x: u8, y: u8) -> bool
    requires room { length bits.now ≡ 6144 }
    requires level { k ≤ 6 }
    requires column { x < 32 }
    requires row { y < 32 }
    ensures { result ≡ touching (bit_at bits.now k) x y }
{
    let (w, s) = (2 * x, 2 * y);
    let (west, south) = (w.saturating_sub(1), s.saturating_sub(1));
    bit(bits, k, w, s)
        || bit(bits, k, w + 1, s)
        || bit(bits, k, w, s + 1)
        || bit(bits, k, w + 1, s + 1)
        || bit(bits, k, west, s)
        || bit(bits, k, west, s + 1)
        || bit(bits, k, w + 2, s)
        || bit(bits, k, w + 2, s + 1)
        || bit(bits, k, w, south)
        || bit(bits, k, w + 1, south)
        || bit(bits, k, w, s + 2)
        || bit(bits, k, w + 1, s + 2)
}

/// Whether the node of the level after `k` is split. The smaller nodes near it are looked at first, since a test
/// of the node's own triangles costs much more.
fn decide(grid: &Grid, tol: u16, k: u8, x: u8, y: u8, bits: &[bool]) -> bool
    requires room { length bits.now ≡ 6144 }
    requires level { k < 6 }
    requires place { is_node (suc k) x y ≡ true }
    ensures { result ≡ (not (fits_at grid.now tol (suc k) x y) || touching (bit_at bits.now k) x y) }
{
    if near_split(bits, k, x, y) {
        return true;
    }
    !fits(grid, &Node::at(k + 1, x, y), tol)
}

/// Fills a row of the level after `k`.
fn fill_row(grid: &Grid, tol: u16, k: u8, y: u8, bits: &mut [bool])
    requires room { length bits.old ≡ 6144 }
    requires level { k < 6 }
    requires row { y < 64 / 2 ^ (suc k) }
    requires below { IsRight grid.now tol bits.old k }
    ensures { IsRowFilled grid.now tol k y bits.old bits.new }
{
    let across = 64u8 >> (k + 1);
    for x in 0..across {
        let is_split = decide(grid, tol, k, x, y, bits);
        bits[1024 * k as usize + 32 * y as usize + x as usize] = is_split;
    }
}

/// Fills the level after `k`.
fn fill(grid: &Grid, tol: u16, k: u8, bits: &mut [bool])
    requires room { length bits.old ≡ 6144 }
    requires level { k < 6 }
    requires below { (l : ℕ) → l ≤ k → IsRight grid.now tol bits.old l }
    ensures { (l : ℕ) → l ≤ suc k → IsRight grid.now tol bits.new l }
{
    let across = 64u8 >> (k + 1);
    for y in 0..across {
        fill_row(grid, tol, k, y, bits);
    }
}

/// Which nodes are split, seen as their bits.
#[derive(Debug, Drop)]
pub struct Splits {
    bits: [bool; 6144],
}

impl Model for Splits {
    ghost use Rattle.std.specs.Prelude.{Bool, List};

    ghost Value = { List Bool };

    ghost view = { λ s. s.bits };
}

/// Which nodes are split: a node of side 1 is not. A larger one is split where it does not fit within `tol`
/// metres, or where a node of half its side is split that lies in it, or that lies beside it and shares a part
/// of positive length of a side with it.
pub fn split_map(grid: &Grid, tol: u16) -> Splits
    ensures { IsSplitMap grid.now tol result }
{
    let mut bits = [false; 6144];
    for k in 0..6u8 {
        fill(grid, tol, k, &mut bits);
    }
    Splits { bits }
}

impl Splits {
    /// Whether the node is split.
    pub fn split(&self, node: &Node) -> bool
        requires { IsNode node.now }
        ensures { result ≡ bit_at self.now (level_of node.now.side) (column_of node.now) (row_of node.now) }
    {
        let level = node.level();
        self.split_at(level, (node.i - 1) / node.side, (node.j - 1) / node.side)
    }

    /// Whether the node in this column and row of a level is split; false where there is no such node.
    pub fn split_at(&self, level: u8, column: u8, row: u8) -> bool
        requires { level ≤ 6 }
        ensures { result ≡ bit_at self.now level column row }
    {
        bit(&self.bits, level, column, row)
    }
}
