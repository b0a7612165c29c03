// What one pass over posts finds of them.
ghost use Rattle.std.specs.Prelude.{◌≡◌};
ghost use Rattle.dted_cell.specs.Counts.{joined};

use terrain_base::Extremes;

// How many posts are void, and the least and the greatest.
#[derive(Clone, Copy)]
pub(crate) struct Counts {
    pub(crate) voids: u32,
    pub(crate) extremes: Option<Extremes>,
}

// The extremes of two parts together.
pub(crate) fn join(before: Option<Extremes>, more: Option<Extremes>) -> Option<Extremes>
    ensures { result ≡ joined before more }
{
    match (before, more) {
        (None, _) => more,
        (Some(_), None) => before,
        (Some(e), Some(f)) => {
            Some(Extremes {
                least: e.least.min(f.least),
                greatest: e.greatest.max(f.greatest),
            })
        }
    }
}
