//! Height codes in a frame.
ghost use Rattle.std.specs.Prelude.{◌≡◌, ℤ, pos, ◌-ℤ◌, ◌*ℤ◌, ◌≤◌, IfSome, IfNone};
ghost use Rattle.std.specs.Int.{◌∣◌};
ghost use Rattle.height_lattice.specs.HeightCode.{IsCode, code_of, codes_per_metre};
ghost use Rattle.height_lattice.specs.HeightFrame.{IsWithin};

use crate::height_frame::HeightFrame;

/// The greatest height code (quantized-mesh-1.0, "Vertex Data").
const GREATEST_CODE: u16 = 32767;

/// How many metres a height lies above the frame's base.
fn metres_above_base(frame: &HeightFrame, metres: i16) -> u16
    requires { IsWithin frame.now metres }
    ensures { pos result ≡ metres -ℤ frame.now.base }
{
    (metres as i32 - frame.base as i32) as u16
}

/// The height code of `metres`, from 0 at the frame's base to 32767 at its end: exact.
///
/// The frame's range divides 32767, and the height lies in the frame.
pub fn code(frame: &HeightFrame, metres: i16) -> u16
    requires divisor { frame.now.range ∣ 32767 }
    requires within { IsWithin frame.now metres }
    ensures place { IsCode frame.now metres result }
    ensures product { pos result ≡ (metres -ℤ frame.now.base) *ℤ pos (codes_per_metre frame.now) }
    ensures bound { result ≤ 32767 }
    ensures exact { result ≡ code_of frame.now metres }
{
    metres_above_base(frame, metres) * (GREATEST_CODE / frame.range)
}

/// The height of a code, in metres: `metres` of the `code` of a height is that height.
///
/// The frame's range divides 32767. None exactly where the code is above 32767 or falls between two metres.
pub fn metres(frame: &HeightFrame, code: u16) -> Option<i32>
    requires { frame.now.range ∣ 32767 }
    ensures some { IfSome result
        (λ m. (code ≤ 32767) × (codes_per_metre frame.now ∣ code) × IsCode frame.now m code) }
    ensures none { IfNone result (code ≤ 32767 → ¬ (codes_per_metre frame.now ∣ code)) }
    ensures inverse { (m : ℤ) → IsWithin frame.now m → IsCode frame.now m code → result ≡ Some m }
{
    let codes_per_metre = GREATEST_CODE / frame.range;
    if code > GREATEST_CODE {
        return None;
    }
    if code % codes_per_metre != 0 {
        return None;
    }
    Some(frame.base as i32 + (code / codes_per_metre) as i32)
}

#[cfg(test)]
mod tests {
    use super::*;
    use crate::height_frame::frame;

    #[test]
    fn codes_and_heights_stand_for_each_other(rt: HostRuntime) {
        let table = [
            (-3, 4, 4, 32767),
            (-3, 4, -3, 0),
            (-3, 4, 0, 14043),
            (-3, 5, 5, 8456),
            (9, 9, 9, 0),
            (0, 152, 152, 22952),
            (0, 1058, 1058, 7406),
            (-500, 8848, 8848, 9348),
            (-16000, 16000, 16000, 32000),
        ];
        for (least, greatest, height, wanted) in table {
            assert!(rt;
                least >= -16000 && least <= height && height <= greatest && greatest <= 16000
            );
            let frame = frame(least, greatest);
            assert_eq!(rt; code(&frame, height), wanted, "the code of {height}");
            assert_eq!(rt;
                metres(&frame, wanted),
                Some(height as i32),
                "the height of {wanted}"
            );
        }
    }

    #[test]
    fn codes_between_metres_and_above_the_greatest_are_refused(rt: HostRuntime) {
        let frame = frame(-3, 4);
        for (code, wanted) in [
            (1, None),
            (4681, Some(-2)),
            (4682, None),
            (32767, Some(4)),
            (37448, None),
        ] {
            assert_eq!(rt; metres(&frame, code), wanted, "the height of {code}");
        }
    }

    #[test]
    fn heights_at_the_end_of_a_frame_may_be_more_than_the_greatest(rt: HostRuntime) {
        assert_eq!(rt; metres(&frame(9, 9), 32767), Some(10));
        assert_eq!(rt; metres(&frame(16000, 16000), 32767), Some(16001));
    }
}
