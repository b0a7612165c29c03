//! What the definitions of a cell say of one another. Each function does nothing: its contract is a law.
ghost use Rattle.std.specs.Prelude.{◌≡◌, ℕ, ◌*◌, List, None, Some};
ghost use Rattle.common_laws.specs.First.{IsFirst};
ghost use Rattle.terrain_base.specs.declared.square.Square.{Square};
ghost use Rattle.terrain_base.specs.declared.level.CellLevel.{CellLevel};
ghost use Rattle.terrain_base.specs.declared.post.Post.{Post};
ghost use Rattle.dted_cell.specs.declared.refusal.CellRefusal.{CellRefusal};
ghost use Rattle.dted_cell.specs.Cell.{IsCell, IsSomeCell, square_in, level_in, posts_in};
ghost use Rattle.dted_cell.specs.CellLaws.{ExtremesBound, VoidsHaveNone, PostsAreHeights};
ghost use Rattle.dted_cell.specs.Field.{number_of, IsNumberField};
ghost use Rattle.dted_cell.specs.Lead.{AreLabels, lead_of};
ghost use Rattle.dted_cell.specs.Refusal.{conditions_of, refusal_of};

/// A file is a cell exactly where it gets no refusal, and then of one square, one level and one list of
/// posts: those that are read.
pub fn one_cell()
    ensures accepted { (bytes : List ℕ) → refusal_of bytes ≡ None →
        IsCell bytes (square_in bytes) (level_in bytes) (posts_in bytes) }
    ensures unrefused { (bytes : List ℕ) → IsSomeCell bytes → refusal_of bytes ≡ None }
    ensures only { (bytes : List ℕ) (square : Square) (level : CellLevel) (posts : List (List Post)) →
        IsCell bytes square level posts →
        (square ≡ square_in bytes) × (level ≡ level_in bytes) × (posts ≡ posts_in bytes) }
{}

/// A file gets a refusal exactly where its condition holds and none before it does.
pub fn first_refusal()
    ensures found { (bytes : List ℕ) (refusal : CellRefusal) →
        refusal_of bytes ≡ Some refusal → IsFirst (conditions_of bytes) refusal }
    ensures only { (bytes : List ℕ) (refusal : CellRefusal) →
        IsFirst (conditions_of bytes) refusal → refusal_of bytes ≡ Some refusal }
{}

/// A field has a number exactly where it is blanks and then the digits of that number, at least one.
pub fn number_field()
    ensures parts { (field : List ℕ) (n : ℕ) → number_of field ≡ Some n → IsNumberField field n }
    ensures whole { (field : List ℕ) (n : ℕ) → IsNumberField field n → number_of field ≡ Some n }
{}

/// The lead is all the labels at the start of a file, at most four.
pub fn lead_is_labels()
    ensures { (bytes : List ℕ) → (count : ℕ) × AreLabels bytes count × (lead_of bytes ≡ 80 * count) }
{}

/// The extremes are the heights of two posts, and all others lie between them. There are none exactly where every
/// post is void.
pub fn extremes_bound_posts()
    ensures bound { ExtremesBound }
    ensures none { VoidsHaveNone }
{}

/// A post of a cell is void or from -16000 to 16000 metres.
pub fn posts_are_heights()
    ensures { PostsAreHeights }
{}
