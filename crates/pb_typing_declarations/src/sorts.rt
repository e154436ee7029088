//! What declarations say of sorts and enumerators.

/// The built-in integer sorts.
#[derive(Clone, Copy, PartialEq, Eq)]
pub enum Integers {
    /// The whole numbers from 1 on.
    Pos,
    /// The whole numbers from 0 on.
    Nat,
    /// The whole numbers.
    Int,
}

/// An enumerator: the number of its struct among the structs in declared order, how many
/// enumerators that struct has, and the enumerator's place among them. All count from 0.
#[derive(Clone, Copy, PartialEq, Eq)]
pub struct Enumerator {
    pub sort: u8,
    pub count: u8,
    pub place: u8,
}
