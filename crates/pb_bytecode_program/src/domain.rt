//! What is known of an operand without running the program.

/// A kind, with an interval for a number: the abstract value of an operand or of a slot (interval
/// analysis, Cousot and Cousot 1977).
#[derive(Clone, Copy, PartialEq, Eq)]
pub enum AbstractValue {
    /// A truth value.
    Bool,
    /// A whole number from `low` to `high`, both included.
    Int { low: i64, high: i64 },
    /// An enumerator of the sort, with an index below `count`.
    Enum { sort: u8, count: u8 },
}
