// A heightmap, read where its bytes lie.
ghost use Rattle.std.specs.Prelude.{◌≡◌, ◌+◌, ◌≤◌, ◌↔◌, length, IsSome, IfSome, true};
ghost use Rattle.heightmap_out.specs.View.{has_tile_length, sample_in, mask_in};

use byteorder::{ByteOrder, LittleEndian};
use std::marker::Model;

/// A tile in the format heightmap-1.0, read where its bytes lie. It is seen as the bytes of its file.
#[derive(Drop)]
pub struct HeightmapView<'a> {
    bytes: &'a [u8],
}

impl<'a> Model for HeightmapView<'a> {
    ghost use Rattle.std.specs.Prelude.{◌≡◌, List, ℕ, true};
    ghost use Rattle.heightmap_out.specs.View.{has_tile_length};

    ghost Value = { List ℕ };

    ghost view = { λ v. v.bytes.now };

    ghost invariant = { λ v. has_tile_length v.bytes.now ≡ true };
}

impl<'a> HeightmapView<'a> {
    /// Reads a tile's file. Nothing is copied. `None` exactly where it has neither the length of a tile with one byte
    /// of water mask, 8452, nor that of one with 256 by 256, 73987.
    pub fn read(bytes: &'a [u8]) -> Option<HeightmapView<'a>>
        ensures some { IsSome result ↔ (has_tile_length bytes.now ≡ true) }
        ensures view { IfSome result (λ view. view ≡ bytes.now) }
    {
        if bytes.len() == 8452 || bytes.len() == 73_987 {
            Some(HeightmapView { bytes })
        } else {
            None
        }
    }

    /// The sample of a line, counted from the north, and a place, counted from the west: fifths of a metre above -1000
    /// metres.
    #[tactic(auto, unfolding(crate::specs::View::sample_in))]
    pub fn sample(&self, line: u8, place: u8) -> u16
        requires line { line ≤ 64 }
        requires place { place ≤ 64 }
        ensures { result ≡ sample_in self.now line place }
    {
        let at = 2 * (65 * line as usize + place as usize);
        LittleEndian::read_u16(&self.bytes[at..])
    }

    /// The child tile mask: south-west 1, south-east 2, north-west 4, north-east 8.
    #[tactic(auto, unfolding(crate::specs::View::mask_in))]
    pub fn mask(&self) -> u8
        ensures { result ≡ mask_in self.now }
    {
        self.bytes[8450]
    }
}
