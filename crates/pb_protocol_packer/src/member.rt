//! The variables of a group, and how their values are written.

use pb_text_tree::Name;

/// How a text writes a variable's values: as truth values, as enumerators or as whole numbers.
#[derive(Drop)]
pub enum Kind {
    Boolean,
    Enumeration(Vec<Name>),
    Whole,
}

/// A variable with its sort.
#[derive(Drop)]
pub struct Variable {
    pub name: Name,
    pub sort: Name,
}

/// A variable of a group: its `size` values are whole numbers from `low` on, and count `weight`
/// each in the group's number.
#[derive(Drop)]
pub struct Member {
    pub variable: Variable,
    pub kind: Kind,
    pub low: i32,
    pub size: u32,
    pub weight: u32,
}
