//! The syntax tree of a model: state variables, guarded steps, the initial state, and properties in
//! the modal mu-calculus, each part with the place of its token. It stands below the reader and
//! below whatever reads the tree, so that these need not know each other.
//!
//! Names, variables, sorts, ranges and data terms are those of texts. As there, operators in a row
//! are one node with a list of links; `specs/Form.antt` says which binary nodes a chain stands for.
#![tactic(auto)]

pub mod formula;
pub mod model;
pub mod step;
pub mod step_set;

pub use formula::{Formula, Link, Modality};
pub use model::{InitialState, Model, Property};
pub use step::{Assignment, Step};
pub use step_set::{StepSet, StepSetLink};
