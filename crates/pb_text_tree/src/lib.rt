//! The syntax tree of a text, as it is read: each part with the place of its token. It stands below
//! the reader and below whatever reads the tree, so that these need not know each other.
//!
//! A chain of one connective, as `a && b && c`, is one node with a list of links, and so is a chain
//! of arithmetic, so that a long chain is neither read, released nor passed over by recursion.
//! `specs/Form.antt` says which binary nodes a chain stands for.
//!
//! Of names, variables, sorts, ranges and data terms there are copies, which are equal, places
//! included, for the printer and for whatever makes texts of parts of others.
#![tactic(auto)]

pub mod formula;
pub mod name;
pub mod operator;
pub mod place;
pub mod sort;
mod sort_copies;
pub mod spec;
pub mod term;
mod term_copies;
pub mod variable;
mod variable_copies;

pub use formula::{Formula, Instance, Link};
pub use name::Name;
pub use operator::{Arithmetic, Comparison, Connective, Quantifier};
pub use place::Place;
pub use sort::{Enumerator, Range, Sort, SortDeclaration};
pub use sort_copies::{copy_declarations, copy_ranges};
pub use spec::{Equation, Spec};
pub use term::{Argument, ArithmeticLink, Term, TermLink};
pub use term_copies::{copy_arguments, copy_term};
pub use variable::Variables;
pub use variable_copies::{copy_name, copy_variables};
