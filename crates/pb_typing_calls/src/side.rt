//! The two sides of a connective.

/// On which side of a connective an operand stands.
#[derive(Clone, Copy)]
pub enum Side {
    Left,
    Right,
}
