//! What is found of properties.

use pb_command_faults::PropertyExcess;
use pb_model_properties::Verdict;
use pb_report::Answer;

/// What is found of a property.
#[derive(Clone, Copy)]
pub enum Finding {
    /// The verdict on it, and what was counted of its text.
    Decided(Verdict, Answer),
    /// What is shown where counts aren't asked for, by the instances nearest to the initial one or
    /// together with other properties: that it is satisfied; or that its negation is, and so it
    /// isn't.
    Shown(bool),
    /// It is refused: its text is too large, or that of its negation, where the verdict needs it.
    Refused(PropertyExcess),
}

/// What is found of the property at a place.
#[derive(Clone, Copy)]
pub struct PropertyFinding {
    pub place: usize,
    pub finding: Finding,
}
