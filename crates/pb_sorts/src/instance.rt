//! An instance of a predicate variable: an equation with a value of each of its parameters.
use smallvec::SmallVec;

/// The values of an equation's parameters, in order; up to eight of them need no memory.
pub type Tuple = SmallVec<i64, 8>;

/// An equation, by its place from 0, with a value of each of its parameters (Groote and Willemse
/// 2005).
#[derive(Clone, PartialEq, Eq, Drop)]
pub struct Instance {
    pub equation: u8,
    pub values: Tuple,
}
