//! Kinds and intervals of data terms.
#![tactic(auto)]

mod laws;

pub use laws::{
    no_faults_where_well_typed, values_are_contained, well_typed_by_what_is_reached,
    well_typed_specifications_fit,
};
