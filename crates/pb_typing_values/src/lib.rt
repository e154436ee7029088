//! The value of a data term in 64 bits, and the truth of a formula under an environment (Groote and
//! Willemse 2005), on the typed tree: the variables are slots, whose values stand in one list. It
//! stands below whatever evaluates a text: the plain solver, type checking where it judges an
//! argument by its value, and the search for a call's place.
#![tactic(auto)]

mod environment;
mod formula;
mod odometer;
mod operation;
mod term;

pub use environment::Environment;
pub use formula::formula_truth;
pub use odometer::{advance, clear, deciding, start};
pub use term::value;
