//! The negation of a protocol's properties. A property that a protocol doesn't satisfy may be
//! false only because a step left the ranges, since a successor outside them satisfies `true` and
//! no other formula. Where the protocol satisfies the negation, the property fails: that of a plain
//! protocol in wider ranges too. Where it satisfies neither, the ranges decide. Definitions, in
//! `specs/`, laws, and the protocol whose properties are negated.
#![tactic(auto)]

mod chain;
mod formula;
mod laws;
mod protocol;

pub use laws::{
    fails_in_wider_ranges, negations_are_positive, negations_erase, never_both, one_without_cuts,
    worked_examples,
};
pub use protocol::negate_properties;
