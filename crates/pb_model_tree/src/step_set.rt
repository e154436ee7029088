//! Sets of steps, of which the modalities of a formula speak.

use pb_text_tree::{Name, Place};

/// A set of steps, by their names.
#[derive(Drop)]
#[cycle(step_sets)]
pub enum StepSet {
    /// `true`: all steps.
    All {
        place: Place,
    },
    /// The step of this name.
    Step(Name),
    /// `!` and a set: the steps that aren't in it. The place is that of `!`.
    Complement {
        place: Place,
        operand: Box<StepSet>,
    },
    /// The steps of any of these sets: `first || operand || ..`, read to the right.
    Union {
        first: Box<StepSet>,
        links: Vec<StepSetLink>,
    },
}

/// A `||` between sets of steps, where it stands, and the set behind it.
#[derive(Drop)]
#[cycle(step_sets)]
pub struct StepSetLink {
    pub place: Place,
    pub operand: StepSet,
}
