// A row of a manifest.
ghost use Rattle.std.specs.Prelude.{◌≡◌, ◌≢◌, ◌↔◌, IsTrue, IfSome, IfNone, Contains};
ghost use Rattle.std.specs.Ordering.{is_lt};
ghost use Rattle.manifest_lines.specs.Grammar.{Grammar, IsGrammar};

use crate::Version;

/// What a manifest has a row for: it has a text, an order, and versions in which it may stand.
pub trait Row: Copy {
    /// The text and the order of rows, and which may stand in which version.
    ghost grammar: { Grammar Self };

    /// The row of this version that has this text. `None` exactly where there is none.
    fn read(version: Version, line: &[u8]) -> Option<Self>
        ensures some { IfSome result (λ row. (line.now ≡ grammar.text row) × IsTrue (grammar.suits version row)) }
        ensures none { IfNone result ((row : Self) → IsTrue (grammar.suits version row)
            → line.now ≢ grammar.text row) };

    /// Whether it comes before another row.
    fn precedes(&self, next: &Self) -> bool
        ensures { result ≡ is_lt (grammar.cmp self.now next.now) };

    /// Whether it is one of the rows.
    fn is_among(&self, rows: &[Self]) -> bool
        ensures { IsTrue result ↔ Contains rows.now self.now };

    /// No row has a line feed, their texts tell rows apart, and their order is one.
    ghost sound: { IsGrammar grammar };
}
