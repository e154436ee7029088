//! Which steps of a protocol stay whole where it is unfolded: those whose own variables stand in
//! terms as data alone, and which no property names by their values.
#![tactic(auto)]

mod data;
mod names;
mod valued;
mod whole;

pub use names::own_names;
pub use valued::valued_names;
pub use whole::stays_whole;
