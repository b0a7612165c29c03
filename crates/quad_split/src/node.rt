//! The nodes of the quadtree over the grid points 1 to 65.

ghost use Rattle.std.specs.Prelude.{◌≡◌, true, ◌≤◌};
ghost use Rattle.quad_split.specs.Node.{IsNode, level_of, column_of, row_of, is_node};

/// A square of the grid: its south-west corner is at the grid point (`i`, `j`), and its `side` is a power of
/// two from 1 to 64. `i - 1` and `j - 1` are multiples of the side, and the square lies within 1 to 65.
#[derive(Clone, Copy, Debug, PartialEq, Eq)]
pub struct Node {
    pub i: u8,
    pub j: u8,
    pub side: u8,
}

/// The place is a node's: `level` has `64 >> level` columns and rows.
#[tactic(auto, using(std::proofs::lemmas::Bool::Decides::nat_tests), unfolding(crate::specs::Node::is_node))]
pub(crate) fn is_place(level: u8, column: u8, row: u8) -> bool
    requires { level ≤ 6 }
    ensures { result ≡ is_node level column row }
{
    let across = 64u8 >> level;
    column < across && row < across
}

impl Node {
    /// The node of a level, whose nodes have the side `1 << level`, in this column from the west and this row
    /// from the south.
    pub fn at(level: u8, column: u8, row: u8) -> Node
        requires { is_node level column row ≡ true }
        ensures node { IsNode result }
        ensures level { level_of result.side ≡ level }
        ensures column { column_of result ≡ column }
        ensures row { row_of result ≡ row }
    {
        let side = 1u8 << level;
        Node {
            i: 1 + column * side,
            j: 1 + row * side,
            side,
        }
    }

    /// The level of the node: the side is `1 << level`.
    #[tactic(auto, using(std::proofs::lemmas::Bool::Decides::nat_tests), unfolding(crate::specs::Node::level_of))]
    pub fn level(&self) -> u8
        requires { IsNode self.now }
        ensures { result ≡ level_of self.now.side }
    {
        match self.side {
            0..=1 => 0,
            2..=3 => 1,
            4..=7 => 2,
            8..=15 => 3,
            16..=31 => 4,
            32..=63 => 5,
            _ => 6,
        }
    }
}
