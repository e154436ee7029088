//! What is found of properties that are explained.
ghost use Rattle.pb_command_models.specs.Models.{HasModel};
ghost use Rattle.pb_command_models.specs.Outcomes.{FindsExplained, IsExplainedIn};

use crate::decision::{decided, is_denied};
use crate::finding::Finding;
use crate::negation::InputWithNegation;
use crate::options::WhyOptions;
use crate::outcome::{AskedOutcome, answered};
use pb_command_solver::{Context, Progress, SolveOptions};
use pb_command_texts::ExplainedText;
use pb_game::Solver;
use std::alloc::AllocError;
use std::thread::Threads;

/// The property at a place is told with these options; it is shown always, or where the verdict
/// isn't true.
#[derive(Clone, Copy, PartialEq, Eq)]
pub(crate) struct Asked {
    pub place: usize,
    pub always: bool,
    pub options: WhyOptions,
}

/// What is found of the property at a place whose text is explained: as `check_text` finds it.
///
/// # Errors
/// Memory was refused.
pub(crate) fn explained_finding<R: Threads + Sync, G: Progress + Sync>(
    context: &Context<'_, R, G>,
    input: &mut InputWithNegation<'_>,
    explained: &ExplainedText,
    asked: Asked,
) -> Result<Finding, AllocError>
    requires { HasModel input.now (λ model. IsExplainedIn model asked.place explained.now) }
    ensures { FindsExplained explained.now asked.place input.old input.new result }
{
    if explained.explanation.evidence.truth {
        return Ok(Finding::Shown(true));
    }
    let solving = SolveOptions {
        workers: asked.options.workers,
        solver: Solver::Zielonka,
    };
    let denied = is_denied(context, input, asked.place, solving)?;
    if denied {
        return Ok(Finding::Shown(false));
    }
    let outcome = answered(context, &explained.verified, solving)?;
    let asked = AskedOutcome {
        place: asked.place,
        outcome,
    };
    decided(context, input, asked, solving)
}
