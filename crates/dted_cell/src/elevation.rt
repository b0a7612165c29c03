// Elevations, by sign and magnitude.
ghost use Rattle.std.specs.Prelude.{◌≡◌};
ghost use Rattle.dted_cell.specs.Elevation.{signed_of, post_of, IsElevation, IsPost};

use terrain_base::Post;

// The greatest height above or below 0, in metres.
pub(crate) const HIGHEST: u16 = 16000;

// The word of a void.
pub(crate) const VOID: u16 = 0xFFFF;

// The number that a word of sign and magnitude says. 0x8000 is 0.
pub(crate) fn signed(word: u16) -> i16
    ensures { result ≡ signed_of word }
{
    if word < 0x8000 {
        word as i16
    } else {
        -((word - 0x8000) as i16)
    }
}

// The post that a word stands for.
#[tactic(auto, using(crate::proofs::Heights::post_is))]
pub(crate) fn post(word: u16) -> Post
    ensures value { result ≡ post_of word }
    ensures range { IsElevation word → IsPost result }
{
    if word == VOID {
        Post::Void
    } else {
        Post::Metres(signed(word))
    }
}
