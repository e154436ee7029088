//! Positive normal form: negations of typed formulas are driven down to data terms. A normal form
//! borrows its data, the carriers of its quantifiers and the arguments of its calls.
#![tactic(auto)]

pub mod formula;
pub mod laws;
pub mod limits;
pub mod normal;
mod sign;
mod signed;

pub use formula::Formula;
pub use normal::{Equation, Normal, normalise};
pub use pb_fixpoint_trees::Junction;
pub use pb_typing_tree::{Argument, Enumerator, Link, Term};
