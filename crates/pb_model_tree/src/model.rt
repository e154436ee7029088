//! Whole models as they are read.

use crate::formula::Formula;
use crate::step::Step;
use pb_text_tree::{Argument, Name, Place, Range, SortDeclaration, Variables};

/// The values of the state variables at the start, in order, the place being that of `init`.
#[derive(Drop)]
pub struct InitialState {
    pub place: Place,
    pub values: Vec<Argument>,
}

/// A formula with the name by which it is asked for.
#[derive(Drop)]
pub struct Property {
    pub name: Name,
    pub formula: Formula,
}

/// What the text of a model says: sorts and ranges, state variables, steps, the initial state, and
/// the properties that are asked of it.
#[derive(Drop)]
pub struct Model {
    pub sorts: Vec<SortDeclaration>,
    pub ranges: Vec<Range>,
    pub state: Vec<Variables>,
    pub steps: Vec<Step>,
    pub initial: InitialState,
    pub properties: Vec<Property>,
}
