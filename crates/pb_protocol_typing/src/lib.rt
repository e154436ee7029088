//! Whether a protocol that was read keeps the rules that the check of its unfolded text can't see,
//! and if not, a rule that fails and where: what its names stand for, the kinds of indices,
//! arguments and assigned values, and the values of steps in formulas.
//!
//! Kinds are all that is known of values here: intervals, and what depends on them, are judged in
//! the texts to which the unfolded properties are translated.
#![tactic(auto)]

mod around;
mod copies;
mod formula;
mod function;
mod index;
mod kind;
mod lists;
mod names;
mod protocol;
mod reading;
mod scope;
mod signature;
mod step;
mod step_set;
mod term;
mod term_kind;
mod written;
mod written_as;

pub use lists::all_lists;
pub use names::{check_apart, declared_names, push_variable_names};
pub use protocol::check_protocol;
pub use step::MAX_ASSIGNMENTS;
