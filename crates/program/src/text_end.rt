//! How the text of a scenario ends.

/// Whether a text is a scenario.
#[derive(Clone, Copy, Debug, PartialEq, Eq)]
pub enum TextEnd {
    /// The text is a scenario, and was played.
    Whole,
    /// The text is no scenario: the line with this number, from 1 on, is bad.
    BadLine(u32),
}
