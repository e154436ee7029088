//! Unfolds the state and the steps of protocols: a state variable for each element of an array, and
//! a step for each tuple of values of a step's own variables, unless it stays whole, folded,
//! without those that no state can take.
#![tactic(auto)]

mod assignment;
mod element;
mod fault;
mod initial;
mod instance;
mod limits;
mod own;
mod sorts;
mod state;
mod step;
mod tuples;
mod unfolder;
mod whole;

pub use element::{Element, element_names, elements};
pub use fault::{StepsError, StepsFault};
pub use initial::initial_terms;
pub use instance::{Instance, instance_name, instances};
pub use limits::{MAX_ELEMENTS, MAX_WRITTEN_STEPS};
pub use own::copy_values;
pub use sorts::sorts_of;
pub use state::flat_state;
pub use step::{UnfoldedSteps, unfold_steps};
pub use unfolder::Unfolder;
pub use whole::WholeSteps;
