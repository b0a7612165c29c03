// A post and its weight.
use terrain_base::Post;

/// A post, and how much it counts, over the product of the two units.
#[derive(Clone, Copy, Debug, PartialEq, Eq)]
pub(crate) struct Weighted {
    pub(crate) post: Post,
    pub(crate) weight: u128,
}
