//! Sorts as they are declared, and the ranges of integer sorts.

use crate::name::Name;
use crate::place::Place;

/// An enumerator of a struct, with its recogniser's name if it has one.
#[derive(Drop)]
pub struct Enumerator {
    pub name: Name,
    pub recogniser: Option<Name>,
}

/// What a sort is declared to be.
#[derive(Drop)]
pub enum Sort {
    /// A struct: its enumerators, in order.
    Struct(Vec<Enumerator>),
    /// Another name of a sort.
    Alias(Name),
}

/// A sort with its name.
#[derive(Drop)]
pub struct SortDeclaration {
    pub name: Name,
    pub sort: Sort,
}

/// A range line: the carrier of an integer sort, both bounds within it. The place is the line's
/// first column.
#[derive(Drop)]
pub struct Range {
    pub place: Place,
    pub name: String,
    pub low: i32,
    pub high: i32,
}
