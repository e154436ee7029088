//! Where in a text an instance is named: the place of the call in the right side of another
//! instance, and all calls that its right side makes, with the values around them. A report that
//! names instances shows by it which step was taken, and for which values.
#![tactic(auto)]

mod calls;
mod chain;
mod gather;
mod loops;
mod made;
mod made_call;
mod named;
mod places;
mod scope;
mod side;
mod slots;
mod sought;
mod values;

pub use made_call::MadeCall;
pub use places::CallPlaces;
pub use side::Side;
