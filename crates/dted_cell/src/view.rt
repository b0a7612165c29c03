// A cell, read where its bytes lie.
ghost use Rattle.std.specs.Prelude.{◌≡◌, ℕ, ◌+◌, ◌*◌, ◌^◌, ◌<◌, ◌≤◌, ◌↔◌, length, IfOk, IsOk, OnOk, IfSome, IsNone, None};
ghost use Rattle.std.specs.Result.{result_err};
ghost use Rattle.dted_cell.specs.Lead.{text_behind_lead};
ghost use Rattle.dted_cell.specs.Record.{record_at};
ghost use Rattle.dted_cell.specs.Cell.{
  IsCell,
  IsSomeCell,
  square_in,
  level_in,
  columns_in,
  rows_in,
  post_in,
  profile_in,
  post_of_row,
  posts_in,
  voids_in,
  extremes_in,
  IsAllVoid,
  BoundsPosts,
};
ghost use Rattle.dted_cell.specs.Elevation.{IsPost};
ghost use Rattle.dted_cell.specs.Facts.{AreFacts};
ghost use Rattle.dted_cell.specs.Counts.{IsCounted};
ghost use Rattle.dted_cell.specs.Good.{IsGood};
ghost use Rattle.dted_cell.specs.Refusal.{refusal_of};

use crate::CellRefusal;
use crate::cell::read_cell;
use crate::counts::Counts;
use crate::elevation::post;
use crate::facts::CellFacts;
use crate::field::word;
use crate::header::Header;
use crate::lead::behind;
use crate::profile::ProfileView;
use crate::record::record_start;
use std::marker::Model;
use terrain_base::{CellLevel, Extremes, Post, Square};

/// A cell, read where its bytes lie. It is seen as the bytes of its file.
#[derive(Drop)]
pub struct CellView<'a> {
    bytes: &'a [u8],
    header: Header,
    counts: Counts,
}

impl<'a> Model for CellView<'a> {
    ghost use Rattle.std.specs.Prelude.{List, ℕ};
    ghost use Rattle.dted_cell.specs.Counts.{IsCounted};
    ghost use Rattle.dted_cell.specs.Good.{IsGood};

    ghost Value = { List ℕ };

    ghost view = { λ v. v.bytes.now };

    ghost invariant = { λ v. IsGood v.bytes.now v.header × IsCounted v.bytes.now v.counts };
}

impl<'a> CellView<'a> {
    /// Reads a file of DTED level 0, 1 or 2. Nothing is copied.
    pub fn read(bytes: &'a [u8]) -> Result<CellView<'a>, CellRefusal>
        ensures ok { IsOk result ↔ IsSomeCell bytes.now }
        ensures view { IfOk result (λ view. view ≡ bytes.now) }
        ensures cell { OnOk result
            (IsCell bytes.now (square_in bytes.now) (level_in bytes.now) (posts_in bytes.now)) }
        // It is the first whose condition holds, and there is none where the file is a cell.
        ensures refusal { result_err result ≡ refusal_of bytes.now }
    {
        CellView::of_bytes(bytes)
    }

    // The view of a file that is a cell, or its refusal.
    fn of_bytes(bytes: &'a [u8]) -> Result<CellView<'a>, CellRefusal>
        ensures view { IfOk result (λ view. view ≡ bytes.now) }
        ensures refusal { result_err result ≡ refusal_of bytes.now }
    {
        let (header, counts) = read_cell(bytes)?;
        Ok(CellView::of(bytes, header, counts))
    }

    // The view of a good file by its header and its counts.
    pub(crate) fn of(bytes: &'a [u8], header: Header, counts: Counts) -> CellView<'a>
        requires good { IsGood bytes.now header }
        requires counted { IsCounted bytes.now counts }
        ensures { result ≡ bytes.now }
    {
        CellView {
            bytes,
            header,
            counts,
        }
    }

    /// The cell's square.
    #[tactic(auto, using(crate::proofs::Views::view_square))]
    pub fn square(&self) -> Square
        ensures { result ≡ square_in self.now }
    {
        self.header.square
    }

    /// The cell's level.
    #[tactic(auto, using(crate::proofs::Views::view_level))]
    pub fn level(&self) -> CellLevel
        ensures { result ≡ level_in self.now }
    {
        self.header.level
    }

    /// How many meridians the cell has.
    #[tactic(auto, using(crate::proofs::Views::view_columns))]
    pub fn columns(&self) -> u16
        ensures { result ≡ columns_in self.now }
    {
        self.header.columns
    }

    /// How many posts each meridian has.
    #[tactic(auto, using(crate::proofs::Views::view_rows))]
    pub fn rows(&self) -> u16
        ensures { result ≡ rows_in self.now }
    {
        self.header.rows
    }

    // What follows the lead.
    #[tactic(auto, using(crate::proofs::Views::view_lead, crate::proofs::Views::view_long, crate::proofs::Views::view_accepted, crate::proofs::Leads::lead_within))]
    fn text(&self) -> &'a [u8]
        ensures accepted { refusal_of self.now ≡ None }
        ensures text { result.now ≡ text_behind_lead self.now }
        ensures long { record_at (rows_in self.now) (columns_in self.now) ≤ length result.now }
    {
        behind(self.bytes, self.header.lead)
    }

    /// The elevations of a column.
    pub fn profile(&self, col: u16) -> ProfileView<'a>
        requires { col < columns_in self.now }
        ensures bytes { result ≡ profile_in self.now col }
        ensures length { length result ≡ 2 * rows_in self.now }
        ensures posts { (row : ℕ) → row < rows_in self.now →
            post_of_row result row ≡ post_in self.now col row }
    {
        let text = self.text();
        let rows = self.rows();
        let start = record_start(rows, col) + 8;
        ProfileView::of(&text[start..start + 2 * rows as usize])
    }

    /// The post of a column and a row, from -16000 to 16000 metres where it is not void.
    pub fn post(&self, col: u16, row: u16) -> Post
        requires col { col < columns_in self.now }
        requires row { row < rows_in self.now }
        ensures value { result ≡ post_in self.now col row }
        ensures range { IsPost result }
    {
        self.profile(col).post(row)
    }

    /// How many posts are void.
    #[tactic(auto, using(crate::proofs::Views::view_voids))]
    pub fn voids(&self) -> u32
        ensures { result ≡ voids_in self.now }
    {
        self.counts.voids
    }

    /// The least and the greatest post. There is none exactly where every post is void.
    #[tactic(auto, using(crate::proofs::Views::view_extremes))]
    pub fn extremes(&self) -> Option<Extremes>
        ensures none { IsNone result ↔ IsAllVoid self.now }
        ensures bounds { IfSome result (BoundsPosts self.now) }
        ensures value { result ≡ extremes_in self.now }
    {
        self.counts.extremes
    }

    /// The cell in short.
    #[tactic(auto, using(crate::proofs::Views::view_facts))]
    pub fn facts(&self) -> CellFacts
        ensures { AreFacts self.now result }
    {
        CellFacts {
            square: self.header.square,
            level: self.header.level,
            voids: self.counts.voids,
            extremes: self.counts.extremes,
        }
    }
}
