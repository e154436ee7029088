//! Guarded steps: how a model goes from one state to the next.

use pb_text_tree::{Argument, Name, Term, Variables};

/// A state variable, and the term whose value in the old state it gets, with its place.
#[derive(Drop)]
pub struct Assignment {
    pub variable: Name,
    pub value: Argument,
}

/// A step: for values of its own variables at which the guard is true, all assignments at once. A
/// state variable that isn't assigned keeps its value.
#[derive(Drop)]
pub struct Step {
    pub name: Name,
    pub variables: Vec<Variables>,
    pub guard: Term,
    pub assignments: Vec<Assignment>,
}
