// The samples of an HGT file.
ghost use Rattle.std.specs.Prelude.{◌≡◌, ◌+◌, ◌≤◌, length};
ghost use Rattle.dted_write.specs.Post.{IsPost};
ghost use Rattle.hgt_cells.specs.Sample.{number_at, is_no_sample, post_of, IsSample};

use byteorder::{BigEndian, ByteOrder};
use terrain_base::Post;

// The number of the two bytes at a place.
pub(crate) fn number(bytes: &[u8], at: usize) -> i16
    requires { at + 2 ≤ length bytes.now }
    ensures { result ≡ number_at bytes.now at }
{
    BigEndian::read_i16(&bytes[at..])
}

// Whether a number is neither a void nor a height.
pub(crate) fn is_no_sample(number: i16) -> bool
    ensures { result ≡ is_no_sample number }
{
    number != i16::MIN && !(-16000 <= number && number <= 16000)
}

// The post that a sample stands for.
pub(crate) fn post(number: i16) -> Post
    requires { IsSample number }
    ensures value { result ≡ post_of number }
    ensures height { IsPost result }
{
    if number == i16::MIN {
        Post::Void
    } else {
        Post::Metres(number)
    }
}
