//! Answers.

/// What a question is answered.
#[derive(Debug, Drop)]
pub enum Answer {
    /// A text of one line or more, each with its line feed.
    Told(String),
    /// Why nothing is told: the cause from its number on, `M1` to `M6`, `Q1` or `Q2`, without a line feed.
    Refused(String),
}
