//! Terms and formulas folded where values that are written decide them: what folding is and that it
//! keeps each value, in `specs/`, and constructors that fold as they build.
#![tactic(auto)]

mod application;
mod chain;
mod connective;
mod enumerator;
mod formula;
mod kept;
mod laws;
mod links;
mod operation;
mod step_set;
mod truth;
mod value;

pub use application::application_term;
pub use connective::{and_term, implies_term, joined_term, not_term, or_term};
pub use formula::{and_formula, implies_formula, joined_formula, not_formula, or_formula};
pub use laws::{folding_keeps_models, folding_keeps_positive_calls, folding_keeps_values};
pub use operation::{Folding, arithmetic_term, compared_term, negative_term};
pub use step_set::{step_named, union_of};
pub use truth::{is_itself, is_possible, truth_value};
pub use value::written_value;
