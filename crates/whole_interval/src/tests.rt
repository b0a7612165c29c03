// Each operation, and sines and cosines, at values that another program computed.
ghost use Rattle.std.specs.Prelude.{pos, ◌^◌, ◌*ℤ◌, ◌<ℤ◌, ◌≤ℤ◌, neg_ℤ};

use crate::{Interval, SineCosine, add, div_pos, div_whole, half_turn, mul, sqrt, sub};

fn at(lo: i128, hi: i128) -> Interval {
    Interval { lo, hi }
}

fn both(sine: (i128, i128), cosine: (i128, i128)) -> SineCosine {
    SineCosine {
        sine: at(sine.0, sine.1),
        cosine: at(cosine.0, cosine.1),
    }
}

#[test]
fn sums_and_differences(rt: HostRuntime) {
    assert_eq!(rt;
        add(&Interval { lo: -7, hi: 7 }, &Interval { lo: 2, hi: 3 }),
        at(-5, 10)
    );
    assert_eq!(rt;
        sub(&Interval { lo: -7, hi: 7 }, &Interval { lo: 2, hi: 3 }),
        at(-10, 5)
    );
}

#[test]
fn products_are_rounded_outward(rt: HostRuntime) {
    assert_eq!(rt;
        mul(&Interval { lo: -3, hi: 5 }, &Interval { lo: -7, hi: 2 }),
        at(-1, 1)
    );
    let wide = mul(
        &Interval {
            lo: -281474976710657,
            hi: 5,
        },
        &Interval {
            lo: -7,
            hi: 281474976710659,
        },
    );
    assert_eq!(rt; wide, at(-281474976710661, 8));
}

#[test]
fn quotients_are_rounded_outward(rt: HostRuntime) {
    assert_eq!(rt; div_whole(&Interval { lo: -7, hi: 7 }, 2), at(-4, 4));
    let divisor = Interval { lo: 3, hi: 4 };
    assert_eq!(rt;
        div_pos(&Interval { lo: -5, hi: 7 }, &divisor),
        at(-469124961184427, 656774945658198)
    );
    assert_eq!(rt;
        div_pos(&Interval { lo: -7, hi: -5 }, &divisor),
        at(-656774945658198, -351843720888320)
    );
    assert_eq!(rt;
        div_pos(&Interval { lo: 5, hi: 7 }, &divisor),
        at(351843720888320, 656774945658198)
    );
}

#[test]
fn roots_are_rounded_outward(rt: HostRuntime) {
    assert_eq!(rt; sqrt(&Interval { lo: 2, hi: 3 }), at(23726566, 29058991));
    assert_eq!(rt;
        sqrt(&Interval {
            lo: 0,
            hi: 1125899906842624
        }),
        at(0, 562949953421312)
    );
}

#[test]
fn quarter_turns_are_exact(rt: HostRuntime) {
    assert_eq!(rt;
        half_turn(1, 2),
        both((281474976710656, 281474976710656), (0, 0))
    );
    assert_eq!(rt;
        half_turn(0, 1),
        both((0, 0), (281474976710656, 281474976710656))
    );
    assert_eq!(rt;
        half_turn(-2, 1),
        both((0, 0), (281474976710656, 281474976710656))
    );
}

#[test]
fn sines_and_cosines_of_each_quarter(rt: HostRuntime) {
    let sixth = half_turn(1, 6);
    assert_eq!(rt;
        sixth,
        both(
            (140737488355323, 140737488355333),
            (243764480361057, 243764480361066)
        )
    );
    let three_quarters = half_turn(3, 4);
    assert_eq!(rt;
        three_quarters,
        both(
            (199032864766427, 199032864766436),
            (-199032864766436, -199032864766426)
        )
    );
    let five_quarters = half_turn(5, 4);
    assert_eq!(rt;
        five_quarters,
        both(
            (-199032864766436, -199032864766426),
            (-199032864766436, -199032864766427)
        )
    );
    let back = half_turn(-1, 6);
    assert_eq!(rt;
        back,
        both(
            (-140737488355333, -140737488355323),
            (243764480361057, 243764480361066)
        )
    );
}

#[test]
fn fine_angles(rt: HostRuntime) {
    let nearly_half = half_turn(1073741823, 1073741824);
    assert_eq!(rt;
        nearly_half,
        both((823545, 823554), (-281474976710660, -281474976710652))
    );
    let back = half_turn(-268435457, 1073741824);
    assert_eq!(rt;
        back,
        both(
            (-199032865348772, -199032865348764),
            (199032864184089, 199032864184099)
        )
    );
    let odd = half_turn(123456789, 1000000007);
    assert_eq!(rt;
        odd,
        both(
            (106453794643740, 106453794643749),
            (260568133355193, 260568133355202)
        )
    );
    let far_back = half_turn(-1999999999, 1000000000);
    assert_eq!(rt;
        far_back,
        both((884275, 884284), (281474976710652, 281474976710660))
    );
}
