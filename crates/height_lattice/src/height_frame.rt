//! The frame of a tile's heights.
ghost use Rattle.std.specs.Prelude.{◌≡◌, ℕ, ℤ, pos, neg_ℤ, ◌≤ℤ◌, ◌≤◌};
ghost use Rattle.std.specs.Int.{◌∣◌};
ghost use Rattle.height_lattice.specs.HeightFrame.{IsFrame, frame_of};

/// The heights that a tile's height codes reach: from `base` to `base + range`, in metres.
#[derive(Clone, Copy, Debug, PartialEq, Eq)]
pub struct HeightFrame {
    /// The height of code 0, in metres.
    pub base: i16,
    /// How many metres lie between code 0 and code 32767.
    pub range: u16,
}

/// The least divisor of 32767 that is at least `metres`.
fn least_divisor(metres: u16) -> u16
    requires { metres ≤ 32767 }
    ensures divides { result ∣ 32767 }
    ensures reaches { metres ≤ result }
    ensures shortest { (range : ℕ) → range ∣ 32767 → metres ≤ range → result ≤ range }
{
    match metres {
        0..=1 => 1,
        2..=7 => 7,
        8..=31 => 31,
        32..=151 => 151,
        152..=217 => 217,
        218..=1057 => 1057,
        1058..=4681 => 4681,
        _ => 32767,
    }
}

/// The frame of the heights from `least` to `greatest`, both in metres and from -16000 to 16000.
///
/// Its range divides 32767, so that each whole metre of it has a code that stands for exactly that height.
pub fn frame(least: i16, greatest: i16) -> HeightFrame
    requires order { least ≤ℤ greatest }
    requires low { neg_ℤ (pos 16000) ≤ℤ least }
    requires high { greatest ≤ℤ pos 16000 }
    ensures frame { IsFrame least greatest result }
    ensures exact { result ≡ frame_of least greatest }
{
    let range = least_divisor((greatest as i32 - least as i32) as u16);
    HeightFrame { base: least, range }
}

#[cfg(test)]
mod tests {
    use super::*;

    #[test]
    fn range_is_the_least_divisor_that_reaches(rt: HostRuntime) {
        let table = [
            (-3, 4, 7),
            (-3, 5, 31),
            (9, 9, 1),
            (0, 1, 1),
            (0, 2, 7),
            (0, 31, 31),
            (0, 32, 151),
            (0, 151, 151),
            (0, 152, 217),
            (0, 217, 217),
            (0, 218, 1057),
            (0, 1057, 1057),
            (0, 1058, 4681),
            (0, 4681, 4681),
            (0, 4682, 32767),
            (-500, 8848, 32767),
            (-16000, 16000, 32767),
        ];
        for (least, greatest, range) in table {
            assert!(rt; least >= -16000 && least <= greatest && greatest <= 16000);
            let wanted = HeightFrame { range, base: least };
            assert_eq!(rt;
                frame(least, greatest),
                wanted,
                "from {least} to {greatest}"
            );
        }
    }
}
