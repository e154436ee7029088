//! The syntax tree of a protocol: a model as it is written, with arrays of state variables,
//! definitions, steps by their values and quantified formulas, each part with the place of its
//! token. It stands below the reader and below whatever reads the tree, so that these need not know
//! each other.
//!
//! Names, variables, sorts, ranges and data terms are those of texts: `x(t)` is an application,
//! whether x is an array, a definition or a function, and counting is one too
//! (`pb_text_counting`). What a model without these forms shares with a protocol is that of
//! `pb_model_tree`.
#![tactic(auto)]

pub mod formula;
mod formula_copy;
pub mod header;
pub mod protocol;
pub mod step;
pub mod step_set;
mod step_set_copy;

pub use formula::{Formula, Link};
pub use formula_copy::copy_formula;
pub use header::{Bounds, Constant, ModelText};
pub use protocol::{Definition, Property, Protocol, StateVariable, StateVariables};
pub use step::{Assignment, Copies, Step};
pub use step_set::{StepSet, StepSetLink, StepValue};
pub use step_set_copy::copy_step_set;
