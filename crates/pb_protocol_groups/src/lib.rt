//! Packs a model: its state variables are put together in at most eight groups, each of which
//! becomes one variable.
#![tactic(auto)]

mod bound_formulas;
mod bound_names;
mod bound_terms;
mod checks;
mod counts;
mod end;
mod formula_names;
mod grouping;
mod members;
mod model_names;
mod packing;
mod state_variables;
mod taken;
mod term_names;

pub use checks::check_packable;
pub use packing::{Packed, pack_checked};
