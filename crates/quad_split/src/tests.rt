use super::*;
use crate::node::is_place;
use terrain_base::Grid;

// Level, column and row, the same node by its corner and side, whether it fits, and whether it is split.
const NODES: [(u8, u8, u8, Node, bool, bool); 11] = [
    (
        1,
        9,
        14,
        Node {
            i: 19,
            j: 29,
            side: 2,
        },
        true,
        false,
    ),
    (
        1,
        31,
        31,
        Node {
            i: 63,
            j: 63,
            side: 2,
        },
        false,
        true,
    ),
    (
        2,
        4,
        7,
        Node {
            i: 17,
            j: 29,
            side: 4,
        },
        false,
        true,
    ),
    (
        3,
        2,
        3,
        Node {
            i: 17,
            j: 25,
            side: 8,
        },
        false,
        true,
    ),
    (
        3,
        1,
        3,
        Node {
            i: 9,
            j: 25,
            side: 8,
        },
        true,
        true,
    ),
    (
        3,
        2,
        4,
        Node {
            i: 17,
            j: 33,
            side: 8,
        },
        true,
        true,
    ),
    (
        3,
        3,
        3,
        Node {
            i: 25,
            j: 25,
            side: 8,
        },
        true,
        false,
    ),
    (
        4,
        0,
        1,
        Node {
            i: 1,
            j: 17,
            side: 16,
        },
        true,
        true,
    ),
    (
        4,
        2,
        1,
        Node {
            i: 33,
            j: 17,
            side: 16,
        },
        true,
        false,
    ),
    (
        5,
        1,
        0,
        Node {
            i: 33,
            j: 1,
            side: 32,
        },
        true,
        true,
    ),
    (
        6,
        0,
        0,
        Node {
            i: 1,
            j: 1,
            side: 64,
        },
        false,
        true,
    ),
];

// All heights are 0 but one of 100 m inside, one in the last corner of the nodes, and one outside of them.
#[test]
fn nodes_beside_a_split_one_of_half_the_side_are_split(rt: HostRuntime) {
    let mut grid = Grid::new(rt.alloc()).expect(&rt, "memory");
    grid.set(20, 30, 100);
    grid.set(65, 65, 16000);
    grid.set(0, 0, -16000);
    let splits = split_map(&grid, 16);
    for (level, column, row, wanted, fitting, splitting) in NODES {
        assert!(rt; level <= 6 && is_place(level, column, row));
        let node = Node::at(level, column, row);
        assert_eq!(rt; node, wanted);
        assert!(rt; node.side >= 2);
        assert_eq!(rt; fits(&grid, &node, 16), fitting);
        assert_eq!(rt; splits.split(&node), splitting);
    }
}
