//! Whole texts as they are read.

use crate::formula::{Formula, Instance};
use crate::name::Name;
use crate::sort::{Range, SortDeclaration};
use crate::variable::Variables;
use pb_fixpoint::Sign;

/// An equation: its sign, its predicate variable with its parameters, and its right side.
#[derive(Drop)]
pub struct Equation {
    pub sign: Sign,
    pub name: Name,
    pub parameters: Vec<Variables>,
    pub right: Formula,
}

/// What a text says: sorts and ranges, equations, the earlier ones dominating, and the instance
/// that is asked for.
#[derive(Drop)]
pub struct Spec {
    pub sorts: Vec<SortDeclaration>,
    pub ranges: Vec<Range>,
    pub equations: Vec<Equation>,
    pub initial: Instance,
}
