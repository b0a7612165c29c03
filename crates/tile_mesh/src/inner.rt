// The corners of leaves beside an edge.
ghost use Rattle.std.specs.Prelude.{◌≡◌, ◌+◌, ◌*◌, ◌^◌, ◌≤◌, ◌++◌, IfOk, OnOk};
ghost use Rattle.std.specs.List.{AllByRecursion};
ghost use Rattle.quad_split.specs.SplitMap.{bit_at};
ghost use Rattle.tile_mesh.specs.Rule.{border_split, leaf_ends, inner_points};

use quad_split::Splits;
use std::alloc::Global;
use terrain_base::{NoMemory, Side};

/// Whether the node of a level at this place along a side is split. Nodes of the level have this side.
fn is_border_split(splits: &Splits, side: Side, level: u8, length: u8, place: u8) -> bool
    requires level { level ≤ 6 }
    requires length { length ≡ 2 ^ level }
    requires place { (place + 1) * length ≤ 64 }
    ensures { result ≡ border_split (bit_at splits.now) side level place }
{
    let last = 64 / length - 1;
    match side {
        Side::West => splits.split_at(level, 0, place),
        Side::South => splits.split_at(level, place, 0),
        Side::East => splits.split_at(level, last, place),
        Side::North => splits.split_at(level, place, last),
    }
}

/// Appends the far ends of the leaves along a side within a node of this level and length.
fn push_leaf_ends(
    splits: &Splits,
    side: Side,
    level: u8,
    length: u8,
    place: u8,
    ends: &mut Vec<u8>,
) -> Result<(), NoMemory>
    requires level { level ≤ 6 }
    requires length { length ≡ 2 ^ level }
    requires place { (place + 1) * length ≤ 64 }
    ensures { let split = border_split (bit_at splits.now) side in
        OnOk result (ends.new.items ≡ ends.old.items ++ leaf_ends split level place) }
{
    if level == 0 {
        ends.push(place + 2)?;
        return Ok(());
    }
    if is_border_split(splits, side, level, length, place) {
        push_leaf_ends(splits, side, level - 1, length / 2, 2 * place, ends)?;
        push_leaf_ends(splits, side, level - 1, length / 2, 2 * place + 1, ends)?;
        return Ok(());
    }
    ends.push(1 + (place + 1) * length)?;
    Ok(())
}

/// The corners of leaves on the line beside an edge.
pub(crate) fn inner_indexes(alloc: Global, splits: &Splits, side: Side) -> Result<Vec<u8>, NoMemory>
    ensures indexes { IfOk result (λ indexes. indexes.items ≡ inner_points (bit_at splits.now) side) }
    ensures within { IfOk result (λ indexes. AllByRecursion (λ x. x ≤ 66) indexes.items) }
{
    let mut indexes = Vec::new(alloc);
    indexes.push(1)?;
    push_leaf_ends(splits, side, 6, 64, 0, &mut indexes)?;
    Ok(indexes)
}
