//! Which steps of a model can be taken in a reached state. The guard of one that can't is true in
//! none, which mostly is a mistake.
ghost use Rattle.std.specs.Prelude.{◌<◌, length, IfOk};
ghost use Rattle.pb_command_models.specs.ReachedSteps.{AsksStep, FindsSteps, IsFoundByModule};

use crate::outcome::{Outcome, early_truth, outcome_of};
use crate::property_module::{PropertyModule, property_module};
use crate::property_text::{AskedText, PropertyText, untyped};
use crate::step_finding::StepFinding;
use pb_base::OrMemory;
use pb_command_faults::SolveFault;
use pb_command_line::Checking;
use pb_command_solver::{Context, Progress, SolveOptions};
use pb_command_texts::solve_options;
use pb_model_properties::{SolvedModel, reached_text_at};
use std::alloc::{AllocError, Global};
use std::thread::Threads;

// The text that asks whether the step at a place can be taken in a reached state.
fn step_text(
    alloc: Global,
    solved: &SolvedModel,
    step: usize,
) -> Result<AskedText, OrMemory<SolveFault>>
    requires { step < length solved.now.typed.model.steps.items }
    ensures { AsksStep solved.now step result }
{
    match reached_text_at(alloc, solved, step) {
        Ok(typed) => Ok(AskedText {
            place: step,
            text: PropertyText::Typed(typed),
        }),
        Err(error) => untyped(error, step),
    }
}

// What is found of a step by the module of the text that asks for it.
fn finding_by<R: Threads + Sync, G: Progress + Sync>(
    context: &Context<'_, R, G>,
    compiled: &PropertyModule,
    options: SolveOptions,
) -> Result<StepFinding, AllocError>
    ensures { IfOk result (IsFoundByModule compiled.now) }
{
    let early = early_truth(context, compiled, options)?;
    if let Some(truth) = early {
        return Ok(StepFinding::by_truth(truth));
    }
    let outcome = outcome_of(context, compiled, options)?;
    match outcome {
        Outcome::TooLarge(excess) => Ok(StepFinding::Refused(excess)),
        Outcome::Answered(answer) => Ok(StepFinding::by_truth(answer.truth)),
    }
}

/// What is found of each step, where counts are asked for.
///
/// # Errors
/// `Typing` where the text that asks whether a step can be taken isn't well typed by another rule
/// than that of limits.
pub(crate) fn steps_on<R: Threads + Sync, G: Progress + Sync>(
    context: &Context<'_, R, G>,
    solved: &SolvedModel,
    options: &Checking,
) -> Result<Vec<StepFinding>, OrMemory<SolveFault>>
    ensures { FindsSteps options.now.counts solved.now result }
{
    let mut findings = Vec::new(context.alloc);
    if !options.counts {
        return Ok(findings);
    }
    let solving = solve_options(options.solving);
    for step in 0..solved.typed.model.steps.len() {
        let asked = step_text(context.alloc, solved, step)?;
        let compiled = property_module(context.alloc, asked.text)?;
        let finding = finding_by(context, &compiled, solving)?;
        findings.push(finding)?;
    }
    Ok(findings)
}
