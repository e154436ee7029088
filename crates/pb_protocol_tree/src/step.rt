//! Guarded steps: how a protocol goes from one state to the next.

use pb_text_tree::{Argument, Name, Place, Term, Variables};

/// `forall` and its variables before an assignment, the place being that of `forall`: the
/// assignment once for each tuple of values, the last variable fastest.
#[derive(Drop)]
pub struct Copies {
    pub place: Place,
    pub variables: Vec<Variables>,
}

/// A state variable, with its index where it is an array, and the term whose value in the old state
/// the element gets, with its place.
#[derive(Drop)]
pub struct Assignment {
    /// Where `forall` stands before it, its variables.
    pub copies: Option<Copies>,
    pub variable: Name,
    pub index: Vec<Argument>,
    pub value: Argument,
}

/// A step: for values of its own variables at which the guard is true, all assignments at once. Of
/// several to one element of an array the last counts; what isn't assigned keeps its value.
#[derive(Drop)]
pub struct Step {
    pub name: Name,
    pub variables: Vec<Variables>,
    pub guard: Term,
    pub assignments: Vec<Assignment>,
}
