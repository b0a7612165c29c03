//! What the refusals and the cells of HGT files come to. Each law is what a function with an empty body ensures.
ghost use Rattle.std.specs.Prelude.{◌≡◌, ◌↔◌, ◌<◌, ℕ, ℤ, List, length, None, Some};
ghost use Rattle.terrain_base.specs.declared.square.Square.{Square};
ghost use Rattle.hgt_cells.specs.declared.refusal.HgtRefusal as refusal;
ghost use Rattle.hgt_cells.specs.Name.{last_part, IsLastPart};
ghost use Rattle.hgt_cells.specs.File.{IsHgt};
ghost use Rattle.hgt_cells.specs.Refusal.{hgt_refusal_of};
ghost use Rattle.hgt_cells.specs.Cell.{hgt_cell_text};
ghost use Rattle.hgt_cells.specs.Laws.{IsFirstBad};

/// The last part of a name follows its last `/`, and has none.
pub fn last_parts_are_plain()
    ensures { (name : List ℕ) → IsLastPart name (last_part name) }
{}

/// A file is refused exactly where it is no HGT file.
pub fn others_are_refused()
    ensures { (bytes : List ℕ) → (hgt_refusal_of bytes ≡ None) ↔ IsHgt bytes }
{}

/// A refused sample is the first, by lines from the north, that is neither a void nor a height.
pub fn the_first_is_refused()
    ensures { (bytes : List ℕ) (line place : ℕ) (value : ℤ) →
        hgt_refusal_of bytes ≡ Some (refusal.HgtRefusal.HeightOutOfRange line place value) →
        IsFirstBad bytes line place value }
{}

/// The cell of an HGT file has bytes.
pub fn cells_have_bytes()
    ensures { (square : Square) (bytes : List ℕ) → 0 < length (hgt_cell_text square bytes) }
{}
