//! Unfolds data terms of protocols: values are put in for variables, definitions are written out,
//! and what written values decide is folded on the way.
#![tactic(auto)]

mod applications;
mod arguments;
mod arithmetic;
mod array;
mod assigned;
mod bounds;
mod connectives;
mod context;
mod copies;
mod counting;
mod element;
mod enumerator;
mod fault;
mod form;
pub mod laws;
mod level;
mod meant;
mod names;
mod operands;
mod pair;
mod protocol;
mod reads;
mod scope;
mod sorts;
mod term;
mod unfold;
mod unfolded;
mod variables;
mod written;

pub use assigned::{Element, unfold_assigned};
pub use context::Context;
pub use copies::{AssignmentCopy, Spread, all_copies, spread_assignments};
pub use element::element_name;
pub use fault::{UnfoldError, UnfoldFault, UnfoldRule};
pub use pair::paired;
pub use scope::{TermScope, last_value};
pub use sorts::{Sorts, Variable};
pub use term::unfold_term;
pub use unfolded::Unfolded;
pub use variables::variables_of;
pub use written::{Written, written_tuples, written_values};
