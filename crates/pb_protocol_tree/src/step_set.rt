//! Sets of steps, of which the modalities of a formula speak.

use pb_text_tree::{Argument, Name, Place};

/// What stands for one of a step's own variables in a set of steps.
#[derive(Drop)]
pub enum StepValue {
    /// `_`: any value.
    Any { place: Place },
    /// The value of a term.
    Value(Argument),
}

/// A set of steps, by their names and the values of their own variables.
#[derive(Drop)]
#[cycle(step_sets)]
pub enum StepSet {
    /// `true`: all steps.
    All {
        place: Place,
    },
    /// The step of this name, for all values of its own variables.
    Step(Name),
    /// The step of this name, for these values of its own variables. There is at least one.
    Instances {
        step: Name,
        values: Vec<StepValue>,
    },
    /// `!` and a set: the steps that aren't in it. The place is that of `!`.
    Complement {
        place: Place,
        operand: Box<StepSet>,
    },
    /// The steps of any of these sets: `first || operand || ..`, read to the right.
    Union {
        first: Box<StepSet>,
        links: Vec<StepSetLink>,
    },
}

/// A `||` between sets of steps, where it stands, and the set behind it.
#[derive(Drop)]
#[cycle(step_sets)]
pub struct StepSetLink {
    pub place: Place,
    pub operand: StepSet,
}
