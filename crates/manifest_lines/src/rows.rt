// The rows of a manifest.
ghost use Rattle.std.specs.Prelude.{◌≡◌, ◌≢◌, ◌↔◌, ◌⊎◌, ℕ, ◌+◌, ◌≤◌, List, [], ◌∷◌, ◌++◌, length, IsTrue};
ghost use Rattle.std.specs.Prelude.{IfSome, IfNone, IfOk, IsErrOf, IsErrAnd, IsOk, OnOk};
ghost use Rattle.manifest_lines.specs.Manifest.{Ascend, AreRowsOf};
ghost use Rattle.manifest_lines.specs.Rows.{AreRows, IsBadRow};
ghost use Rattle.manifest_lines.specs.declared.refusal.ManifestRefusal.TheVariants.{NotADatabase, NoMemory};

use crate::line::split_line;
use crate::{ManifestRefusal, Row, Version};
use std::alloc::Global;

// Whether the row may be the next one.
fn follows<R: Row>(rows: &[R], row: &R) -> bool
    requires { Ascend R.grammar rows.now }
    ensures { IsTrue result ↔ Ascend R.grammar (rows.now ++ row.now ∷ []) }
{
    match rows.last() {
        None => true,
        Some(last) => last.precedes(row),
    }
}

// The next row, and what follows it.
fn take_row<'a, R: Row>(version: Version, bytes: &'a [u8], rows: &[R]) -> Option<(R, &'a [u8])>
    requires { AreRowsOf R.grammar version rows.now }
    ensures some { IfSome result (λ taken. bytes.now ≡ R.grammar.text taken.0 ++ 10 ∷ taken.1.now) }
    ensures next { IfSome result (λ taken. AreRowsOf R.grammar version (rows.now ++ taken.0 ∷ [])) }
    ensures none { IfNone result ((next : R) (rest : List ℕ) → AreRowsOf R.grammar version (rows.now ++ next ∷ [])
        → bytes.now ≢ R.grammar.text next ++ 10 ∷ rest) }
{
    let (line, rest) = split_line(bytes)?;
    let row = R::read(version, line)?;
    if follows(rows, &row) {
        Some((row, rest))
    } else {
        None
    }
}

// Puts a row behind the others.
fn push_row<R: Row>(rows: &mut Vec<R>, row: R) -> Result<(), ManifestRefusal>
    ensures ok { OnOk result (rows.new.items ≡ rows.old.items ++ row ∷ []) }
    ensures memory { IsErrAnd result (λ refusal. refusal ≡ NoMemory) ⊎ IsOk result }
{
    rows.push(row)?;
    Ok(())
}

// All rows. The refused line is the first bad one, where the first row is line 6.
pub(crate) fn read_rows<R: Row>(
    alloc: Global,
    version: Version,
    bytes: &[u8],
    count: u16,
) -> Result<Vec<R>, ManifestRefusal>
    requires { count ≤ 4096 }
    ensures rows { IfOk result (λ rows. AreRows R.grammar version bytes.now rows.items × (length rows.items ≡ count)) }
    ensures refused { (line : ℕ) → IsErrOf result (NotADatabase line)
        → IsBadRow R.grammar version count line bytes.now }
{
    let mut rows = Vec::new(alloc);
    let mut rest = bytes;
    for line in 6..6 + count as u32 {
        let Some(taken) = take_row(version, rest, &rows) else {
            return Err(ManifestRefusal::NotADatabase { line });
        };
        push_row(&mut rows, taken.0)?;
        rest = taken.1;
    }
    if rest.is_empty() {
        Ok(rows)
    } else {
        Err(ManifestRefusal::NotADatabase {
            line: 6 + count as u32,
        })
    }
}
