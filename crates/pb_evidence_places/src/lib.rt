//! Where in a text stand the calls of its evidence. Evidence names instances by the numbers of a
//! module, and the text of the module has the places: one for each name, as a law says.
#![tactic(auto)]

mod call_places;
mod laws;

pub use call_places::call_places_of;
pub use laws::named_instances_are_called;
