//! Whole protocols as they are read.

use crate::formula::Formula;
use crate::step::Step;
use pb_model_tree::InitialState;
use pb_text_tree::{Name, Range, SortDeclaration, Term, Variables};

/// A state variable: one value where it has no indices, else an array, with a value for each tuple
/// of values of its indices.
#[derive(Drop)]
pub struct StateVariable {
    pub name: Name,
    pub indices: Vec<Variables>,
}

/// State variables whose values are of one sort, as `owner, line(c: Cache): Id`. There is at least
/// one.
#[derive(Drop)]
pub struct StateVariables {
    pub variables: Vec<StateVariable>,
    pub sort: Name,
}

/// A name for a data term over the state, its parameters and the definitions before it.
#[derive(Drop)]
pub struct Definition {
    pub name: Name,
    pub parameters: Vec<Variables>,
    pub term: Term,
}

/// A formula with the name by which it is asked for.
#[derive(Drop)]
pub struct Property {
    pub name: Name,
    pub formula: Formula,
}

/// What the text of a model says as it is written: sorts and ranges, state variables, definitions,
/// steps, the initial state, with a term for each state variable, and the properties that are asked
/// of it.
#[derive(Drop)]
pub struct Protocol {
    pub sorts: Vec<SortDeclaration>,
    pub ranges: Vec<Range>,
    pub state: Vec<StateVariables>,
    pub definitions: Vec<Definition>,
    pub steps: Vec<Step>,
    pub initial: InitialState,
    pub properties: Vec<Property>,
}
