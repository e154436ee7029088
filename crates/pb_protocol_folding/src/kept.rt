//! What a connective of two folded operands becomes.

/// What is kept of two operands.
#[derive(Clone, Copy, PartialEq, Eq)]
pub(crate) enum Kept {
    /// Both, with the connective between them.
    Both,
    /// The left one alone.
    Left,
    /// The right one alone.
    Right,
    /// The negation of the left one.
    NotLeft,
    /// Neither: a truth value.
    Truth(bool),
}
