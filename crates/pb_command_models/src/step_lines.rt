//! The lines that name steps that can be taken in no reached state, and how a check ends.
ghost use Rattle.std.specs.Prelude.{◌≡◌, map, flat_map, OnOk, string_bytes};
ghost use Rattle.std.specs.List.{list_any};
ghost use Rattle.pb_model_properties.specs.Verdicts.{unreached_line};
ghost use Rattle.pb_model_properties.specs.Words.{words_in};
ghost use Rattle.pb_command_models.specs.Models.{Pushes};
ghost use Rattle.pb_command_models.specs.ReachedSteps.{all_step_lines, refuses_step, status_of_checked};
ghost use Rattle.pb_command_models.specs.ReachedSteps.{step_line, step_lines};

use crate::finding::PropertyFinding;
use crate::finding_lines::status_of;
use crate::step_finding::StepFinding;
use pb_command_line::Status;
use pb_model_properties::{SolvedModel, name_of_step, push_refused, push_unreached};
use std::alloc::AllocError;

// Puts the line of a step behind others, where something is told of it.
fn push_step(lines: &mut String, name: &str, finding: StepFinding) -> Result<(), AllocError>
    ensures { OnOk result (Pushes (step_line name.now finding) lines.old lines.new) }
{
    match finding {
        StepFinding::Reached => Ok(()),
        StepFinding::Never => push_unreached(lines, name),
        StepFinding::Refused(excess) => push_refused(lines, name, excess.number()),
    }
}

// Puts the lines of what is found of the model's steps behind others.
fn push_steps(
    lines: &mut String,
    solved: &SolvedModel,
    findings: &[StepFinding],
) -> Result<(), AllocError>
    ensures { OnOk result
        (Pushes (step_lines (words_in solved.now) findings.now) lines.old lines.new) }
{
    for (step, finding) in findings.iter().enumerate() {
        push_step(lines, name_of_step(solved, step), *finding)?;
    }
    Ok(())
}

// Puts the lines of steps of these names, which come to none in the model, behind others.
fn push_impossible(lines: &mut String, names: &[String]) -> Result<(), AllocError>
    ensures { OnOk result
        (Pushes (flat_map unreached_line (map string_bytes names.now)) lines.old lines.new) }
{
    for name in names {
        push_unreached(lines, name.as_str())?;
    }
    Ok(())
}

/// Puts the lines that tell of steps behind others: of the model's, and of those of the protocol
/// that come to none in it, where counts are asked for.
///
/// # Errors
/// Memory was refused.
pub(crate) fn push_lines_of_steps(
    lines: &mut String,
    solved: &SolvedModel,
    findings: &[StepFinding],
    counts: bool,
) -> Result<(), AllocError>
    ensures { OnOk result
        (Pushes (all_step_lines counts solved.now findings.now) lines.old lines.new) }
{
    push_steps(lines, solved, findings)?;
    if counts {
        push_impossible(lines, solved.impossible_steps())?;
    }
    Ok(())
}

// Whether a text that asks for a step is refused.
fn has_refused(steps: &[StepFinding]) -> bool
    ensures { result ≡ list_any refuses_step steps.now }
{
    steps.iter().any(|step| step.is_refused())
}

/// How the run ends, where the exit status tells the verdicts or doesn't.
pub(crate) fn status_of_checked(
    findings: &[PropertyFinding],
    steps: &[StepFinding],
    tells: bool,
) -> Status
    ensures { result ≡ status_of_checked tells findings.now steps.now }
{
    if has_refused(steps) {
        return Status::Refused;
    }
    status_of(findings, tells)
}
