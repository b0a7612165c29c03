// The lines of scripts.
ghost use Rattle.std.specs.Prelude.{◌≡◌, ◌≢◌, ◌<◌, ◌++◌, ℕ, List, ◌∷◌, length, map, slice_index, IfOk, IfSome, IfNone};
ghost use Rattle.std.specs.List.{AllZip, slice_split};
ghost use Rattle.std.specs.Str.Lines.{strip_carriage_return};
ghost use Rattle.std.specs.Str.{IsUtf8};
ghost use Rattle.top_words.specs.Script.{IsEditLine, IsLine, AreLines, HasNoFeed, is_line_feed, without_last_feed};
ghost use Rattle.top_words.specs.Meant.{edit_meant, line_meant};
ghost use Rattle.top_words.specs.Words as spelled;

use crate::Edit;
use std::alloc::Global;
use std::str;
use terrain_base::{CellKey, NoMemory};

/// A line of a script.
#[derive(Clone, Copy, Debug)]
pub enum Line<'a> {
    /// Empty, or a note: text that begins with `#`.
    Passed,
    /// Asks for an edit.
    Change(Edit<'a>),
    /// Has none of the forms, or is not UTF-8.
    NoCommand,
}

// The name of a file behind a word and a blank.
fn file_behind<'a>(line: &'a [u8], word: &[u8]) -> Option<&'a str>
    ensures right { IfSome result (λ file. (line.now ≡ word.now ++ file.now) × (0 < length file.now)
        × IsUtf8 file.now) }
    ensures none { IfNone result ((file : List ℕ) → 0 < length file → IsUtf8 file → line.now ≢ word.now ++ file) }
{
    let file = line.strip_prefix(word)?;
    if file.is_empty() {
        return None;
    }
    match str::from_utf8(file) {
        Ok(name) => Some(name),
        Err(_) => None,
    }
}

// The edit that a line asks for.
fn edit_in(line: &[u8]) -> Option<Edit<'_>>
    ensures right { IfSome result (λ edit. IsEditLine line.now (edit_meant edit)) }
    ensures none { IfNone result ((edit : spelled.Edit) → ¬ (IsEditLine line.now edit)) }
{
    if let Some(file) = file_behind(line, b"add ") {
        return Some(Edit::Add { file });
    }
    if let Some(file) = file_behind(line, b"replace ") {
        return Some(Edit::Replace { file });
    }
    let row = line.strip_prefix(b"remove ")?;
    let key = CellKey::read(row)?;
    Some(Edit::Remove { key })
}

// What a line without its line feed and carriage return is.
fn line_in(line: &[u8]) -> Line<'_>
    ensures { IsLine line.now (line_meant result) }
{
    if line.is_empty() {
        return Line::Passed;
    }
    if line[0] == b'#' && str::from_utf8(line).is_ok() {
        return Line::Passed;
    }
    match edit_in(line) {
        Some(edit) => Line::Change(edit),
        None => Line::NoCommand,
    }
}

// Where the first line feed is.
fn line_feed(text: &[u8]) -> Option<usize>
    ensures found { IfSome result (λ end. (end < length text.now) × (slice_index text.now end ≡ 10)) }
    ensures first { IfSome result (λ end. (k : ℕ) → k < end → slice_index text.now k ≢ 10) }
    ensures none { IfNone result (HasNoFeed text.now) }
{
    text.iter().position(|byte| *byte == b'\n')
}

// The text before the first line feed, and the text behind it.
fn split_line(text: &[u8]) -> Option<(&[u8], &[u8])>
    ensures some { IfSome result (λ parts. text.now ≡ parts.0.now ++ 10 ∷ parts.1.now) }
    ensures first { IfSome result (λ parts. HasNoFeed parts.0.now) }
    ensures none { IfNone result (HasNoFeed text.now) }
{
    let end = line_feed(text)?;
    Some((&text[..end], &text[end + 1..]))
}

// A line without the carriage return at its end, if it has one.
fn without_return(line: &[u8]) -> &[u8]
    ensures { result.now ≡ strip_carriage_return line.now }
{
    match line {
        [front @ .., b'\r'] => front,
        _ => line,
    }
}

// A text without the line feed at its end, if it has one.
fn without_last(text: &[u8]) -> &[u8]
    ensures { result.now ≡ without_last_feed text.now }
{
    match text {
        [front @ .., b'\n'] => front,
        _ => text,
    }
}

// The lines of a text that is cut at each line feed.
fn lines_in(alloc: Global, text: &[u8]) -> Result<Vec<Line<'_>>, NoMemory>
    ensures { IfOk result (λ lines. AllZip IsLine (map strip_carriage_return (slice_split is_line_feed text.now))
        (map line_meant lines.items)) }
{
    let mut lines = Vec::new(alloc);
    let mut rest = text;
    while let Some((part, after)) = split_line(rest) {
        lines.push(line_in(without_return(part)))?;
        rest = after;
    }
    lines.push(line_in(without_return(rest)))?;
    Ok(lines)
}

/// The lines of a script, in their order. They are cut at line feeds, the last may lack one, and a carriage return at a
/// line's end is dropped.
pub fn script_lines(alloc: Global, bytes: &[u8]) -> Result<Vec<Line<'_>>, NoMemory>
    ensures { IfOk result (λ lines. AreLines bytes.now (map line_meant lines.items)) }
{
    if bytes.is_empty() {
        return Ok(Vec::new(alloc));
    }
    lines_in(alloc, without_last(bytes))
}
