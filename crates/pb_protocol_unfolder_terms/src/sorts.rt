//! What names of sorts mean: the sorts and ranges of a protocol, and variables of them.

use pb_text_tree::{Range, SortDeclaration};

/// The sorts that a protocol declares, and the ranges of its integer sorts.
#[derive(Clone, Copy)]
pub struct Sorts<'a> {
    pub declarations: &'a [SortDeclaration],
    pub ranges: &'a [Range],
}

/// A variable with the name of its sort.
#[derive(Clone, Copy)]
pub struct Variable<'a> {
    pub name: &'a str,
    pub sort: &'a str,
}
