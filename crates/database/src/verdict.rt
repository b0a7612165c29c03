// What a comparison of held files with those of a state finds.
use terrain_base::Name;

/// How what is held under a name differs from what is wanted there.
#[derive(Clone, Copy, Debug, PartialEq, Eq)]
pub enum Difference {
    /// Other bytes are held.
    Differs,
    /// Nothing is held.
    Missing,
    /// Something is held, and nothing is wanted.
    Extra,
}

/// A name that shows a difference.
#[derive(Clone, Copy, Debug, PartialEq, Eq)]
pub struct Finding {
    pub name: Name,
    pub kind: Difference,
}
