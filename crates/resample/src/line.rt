// A grid line of a tile.
ghost use Rattle.std.specs.Prelude.{◌≡◌, ℕ, ◌<◌, ◌≤◌, ◌^◌};
ghost use Rattle.resample.specs.Line.{IsLine};

/// A grid line: whole degrees, rounded down, and the rest in units of a degree over `d`; and in a cell with so many
/// posts a degree, the post before the line and the way beyond it, in steps over `d`.
#[derive(Clone, Copy)]
pub(crate) struct Line {
    pub(crate) degrees: u64,
    pub(crate) rest: u64,
    pub(crate) posts: u16,
    pub(crate) post: u16,
    pub(crate) beyond: u64,
}

/// The line that lies so many units of a degree over `d` from the first degree.
pub(crate) fn line_at(units: u64, d: u64) -> Line
    requires d { (0 < d) × (d ≤ 2 ^ 29) }
    ensures { IsLine units d result }
{
    let rest = units % d;
    Line {
        degrees: units / d,
        rest,
        posts: 2,
        post: 0,
        beyond: rest,
    }
}

/// Turns to cells with so many posts a degree.
pub(crate) fn turn_to(line: &mut Line, posts: u16, d: u64)
    requires d { (0 < d) × (d ≤ 2 ^ 29) }
    requires posts { (2 ≤ posts) × (posts ≤ 3601) }
    requires rest { line.old.rest < d }
    ensures line { (units : ℕ) → IsLine units d line.old → IsLine units d line.new }
    ensures posts { line.new.posts ≡ posts }
    ensures rest { line.new.rest ≡ line.old.rest }
{
    if line.posts != posts {
        let steps = line.rest * (posts as u64 - 1);
        line.posts = posts;
        line.post = (steps / d) as u16;
        line.beyond = steps % d;
    }
}
