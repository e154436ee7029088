//! What no cut says of a protocol: where no reached instance of a property's text calls one outside
//! the ranges, a verdict is final, be it true or false. Definitions, in `specs/`, and laws.
#![tactic(auto)]

mod laws;

pub use laws::{no_cut_means_one, verdicts_are_final_without_cuts};
