//! How large a model is, before it is checked: the values of its state variables and the states
//! that they make, the steps that are written out, and the equations of its properties.
//!
//! Only the rules of constants and bounds are checked, those of `pb_protocol_typing`, which are
//! about names, sorts and kinds, and that the sorts of state variables have values; so a model has
//! sizes whose states or steps are too many to be solved. `specs/Sizes.antt` has the lines.
#![tactic(auto)]

mod count;
mod formula;
mod laws;
mod number;
mod property;
mod sizes;
mod sort;
mod state;
mod states;
mod step;

pub use laws::equations_are_those_of_translations;
pub use sizes::sizes_of;
