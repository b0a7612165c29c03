// The vertices along an edge of a tile, read where they stand.
ghost use Rattle.std.specs.Prelude.{◌≡◌, ◌^◌, ◌<◌, All, length};
ghost use Rattle.mesh_codec.specs.Layout.{vertices_in};
ghost use Rattle.std.specs.Iterator.{YieldsFirst, item_count};
ghost use Rattle.mesh_codec.specs.Good.{IsTile};
ghost use Rattle.mesh_codec.specs.Tile.{edge_list};

use crate::index::entry;
use crate::layout::{edge_start, vertex_number};
use crate::number::long;
use std::marker::Model;
use terrain_base::Side;

/// The vertices along an edge of a tile, read where they stand. It is seen as the list of those that are
/// left.
#[derive(Drop)]
pub struct EdgeIndexes<'a> {
    bytes: &'a [u8],
    vertices: u32,
    at: usize,
    count: u32,
    next: u32,
}

impl<'a> Model for EdgeIndexes<'a> {
    ghost use Rattle.std.specs.Prelude.{List, ℕ, ◌-◌, map};
    ghost use Rattle.std.specs.List.{range_with_len};
    ghost use Rattle.mesh_codec.specs.Text.{index_width};
    ghost use Rattle.mesh_codec.specs.HighWater.{entry_at};
    ghost use Rattle.mesh_codec.specs.Good.{IsListRead};

    ghost Value = { List ℕ };

    ghost view = { λ s. map (entry_at (index_width s.vertices) s.bytes.now s.at)
        (range_with_len s.next (s.count - s.next)) };

    ghost invariant = { λ s. IsListRead s.bytes.now s.vertices s.at s.count s.next };
}

impl<'a> EdgeIndexes<'a> {
    /// The vertices along an edge of a tile.
    pub(crate) fn of(bytes: &'a [u8], edge: Side) -> EdgeIndexes<'a>
        requires { IsTile bytes.now }
        ensures list { result ≡ edge_list bytes.now edge }
        ensures in_range { All (λ vertex. vertex < vertices_in bytes.now) result }
        ensures few { length result < 2 ^ 32 }
    {
        let start = edge_start(bytes, edge);
        EdgeIndexes {
            bytes,
            vertices: vertex_number(bytes),
            at: start + 4,
            count: long(bytes, start),
            next: 0,
        }
    }
}

impl<'a> Iterator for EdgeIndexes<'a> {
    type Item = u32;

    ghost next_gives = { YieldsFirst (λ rest. rest) };

    ghost remaining = { item_count (λ rest. rest) };

    fn next(&mut self) -> Option<u32> {
        if self.next == self.count {
            return None;
        }
        let index = entry(self.bytes, self.vertices, self.at, self.next as u64);
        self.next += 1;
        Some(index)
    }
}
