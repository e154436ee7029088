//! What becomes of the texts of properties.
ghost use Rattle.std.specs.Prelude.{◌≡◌, true, IfOk, IfSome};
ghost use Rattle.pb_command_models.specs.Outcomes.{IsEarlyBy, IsOutcomeBy, IsTruthBy};

use crate::property_module::PropertyModule;
use pb_base::OrMemory;
use pb_command_faults::PropertyExcess;
use pb_command_solver::{Context, Early, Progress, SolveOptions, answer_early, answer_module};
use pb_report::Answer;
use pb_sorts::Counting;
use pb_verifier::Verified;
use std::alloc::AllocError;
use std::thread::Threads;

/// What becomes of the text of a property: it is answered, or something of it is too large.
#[derive(Clone, Copy)]
pub(crate) enum Outcome {
    Answered(Answer),
    TooLarge(PropertyExcess),
}

/// What becomes of the text of the property at a place.
#[derive(Clone, Copy)]
pub(crate) struct AskedOutcome {
    pub place: usize,
    pub outcome: Outcome,
}

/// What the instances nearest to the initial one of a property's text tell of the property.
///
/// # Errors
/// Memory was refused.
pub(crate) fn early_of<R: Threads + Sync, G: Progress + Sync>(
    context: &Context<'_, R, G>,
    property: &PropertyModule,
    options: SolveOptions,
) -> Result<Early, AllocError>
    ensures { IfOk result (IsEarlyBy property.now) }
{
    match property {
        PropertyModule::TooLarge(_) => Ok(Early::Unknown),
        PropertyModule::Verified(verified) => answer_early(
            context,
            verified,
            Counting::Reached,
            options,
        ),
    }
}

/// Whether the property is satisfied, where the instances nearest to the initial one of its text
/// tell it.
///
/// # Errors
/// Memory was refused.
pub(crate) fn early_truth<R: Threads + Sync, G: Progress + Sync>(
    context: &Context<'_, R, G>,
    property: &PropertyModule,
    options: SolveOptions,
) -> Result<Option<bool>, AllocError>
    ensures { IfOk result (λ found. IfSome found (IsTruthBy property.now)) }
{
    let early = early_of(context, property, options)?;
    Ok(early.truth())
}

/// What becomes of the text of this module, which is explored and solved.
///
/// # Errors
/// Memory was refused.
pub(crate) fn answered<R: Threads + Sync, G: Progress + Sync>(
    context: &Context<'_, R, G>,
    verified: &Verified,
    options: SolveOptions,
) -> Result<Outcome, AllocError>
    ensures { IfOk result (IsOutcomeBy (PropertyModule.Verified verified.now)) }
{
    match answer_module(context, verified, Counting::Reached, options) {
        Ok(answer) => Ok(Outcome::Answered(answer)),
        Err(OrMemory::Refused(_)) => Ok(Outcome::TooLarge(PropertyExcess::Game)),
        Err(OrMemory::Memory) => Err(AllocError),
    }
}

/// What becomes of a property's text.
///
/// # Errors
/// Memory was refused.
pub(crate) fn outcome_of<R: Threads + Sync, G: Progress + Sync>(
    context: &Context<'_, R, G>,
    property: &PropertyModule,
    options: SolveOptions,
) -> Result<Outcome, AllocError>
    ensures { IfOk result (IsOutcomeBy property.now) }
{
    match property {
        PropertyModule::TooLarge(excess) => Ok(Outcome::TooLarge(*excess)),
        PropertyModule::Verified(verified) => answered(context, verified, options),
    }
}

/// Whether a property is shown to be satisfied. It isn't where its text is too large.
///
/// # Errors
/// Memory was refused.
pub(crate) fn is_satisfied<R: Threads + Sync, G: Progress + Sync>(
    context: &Context<'_, R, G>,
    property: &PropertyModule,
    options: SolveOptions,
) -> Result<bool, AllocError>
    ensures { IfOk result (λ satisfied. satisfied ≡ true → IsTruthBy property.now true) }
{
    if let Some(truth) = early_truth(context, property, options)? {
        return Ok(truth);
    }
    match outcome_of(context, property, options)? {
        Outcome::Answered(answer) => Ok(answer.truth),
        Outcome::TooLarge(_) => Ok(false),
    }
}
