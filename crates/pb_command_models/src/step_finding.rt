//! What is found of the steps of a model.
ghost use Rattle.std.specs.Prelude.{◌≡◌};
ghost use Rattle.pb_command_models.specs.ReachedSteps.{by_truth, refuses_step};

use pb_command_faults::PropertyExcess;

/// What is found of a step.
#[derive(Clone, Copy)]
pub enum StepFinding {
    /// It can be taken in a state that is reached.
    Reached,
    /// It can be taken in none.
    Never,
    /// The text that asks so is too large.
    Refused(PropertyExcess),
}

impl StepFinding {
    /// By whether it can be taken in a state that is reached.
    pub(crate) fn by_truth(truth: bool) -> StepFinding
        ensures { result ≡ by_truth truth }
    {
        if truth {
            StepFinding::Reached
        } else {
            StepFinding::Never
        }
    }

    /// Whether the text is refused.
    pub(crate) fn is_refused(self) -> bool
        ensures { result ≡ refuses_step self }
    {
        match self {
            StepFinding::Reached | StepFinding::Never => false,
            StepFinding::Refused(_) => true,
        }
    }
}
