//! Packs the state variables of a model in groups: from a model to one with a variable for each
//! group, and back from a state of the packed model to one of the model.
#![tactic(auto)]

mod assignments;
mod beginning;
mod builder;
mod comparison;
mod declared;
mod digit;
mod enumerators;
mod formula;
mod given;
mod group;
mod group_number;
mod initial;
mod initial_place;
mod member;
mod model;
mod node;
mod place_number;
mod properties;
mod radix;
mod said;
mod scope;
mod seen;
mod step;
mod step_sets;
mod table;
mod to_number;
mod unpacking;

pub use group::{Group, Joined};
pub use member::{Kind, Member, Variable};
pub use model::packed_by;
pub use unpacking::unpack;
