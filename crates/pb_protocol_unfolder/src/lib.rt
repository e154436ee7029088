//! Unfolds protocols: models as they are written become flat models, with a variable for each
//! element of an array, a step for each tuple of values of a step's own variables, and formulas
//! without quantifiers. A protocol without these forms is a flat model as it stands.
#![tactic(auto)]

mod apart;
mod bound;
mod chain;
mod defined;
mod fault;
mod formula;
mod formulas;
mod impossible;
mod laws;
mod left;
mod named_steps;
mod names;
mod origin;
mod plain;
mod plain_formula;
mod plain_step;
mod plain_term;
mod plain_test;
mod property;
mod protocol;
mod room;
mod set;
mod step_set;
mod told;
mod value;
mod value_scope;

pub use fault::{UnfoldingError, UnfoldingFault, UnfoldingRule};
pub use laws::impossible_steps_lead_nowhere;
pub use origin::StepOrigin;
pub use plain::plain_model;
pub use plain_test::is_plain;
pub use protocol::{Unfolded, unfold};
